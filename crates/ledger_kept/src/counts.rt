//! How many entries each seat has.
ghost use Rattle.std.specs.Prelude.{◌≡◌, ◌+◌, ◌<◌, ◌^◌, ℕ, OnOk, IsSome, nat_eq};
ghost use Rattle.std.specs.Map.{lookup};
ghost use Rattle.ledger_kept.specs.Kept.{counted};
ghost use Rattle.ledger_kept.specs.TallySupport.{HasOneMore};

use contract::Memory;
use indexmap::IndexMap;
use std::alloc::AllocError;

pub(crate) type SeatCounts = IndexMap<u64, u64>;

/// How many entries a seat has.
pub(crate) fn count_at(counts: &SeatCounts, seat: u64) -> u64
    ensures { result ≡ counted counts.now.entries seat }
{
    match counts.get(&seat) {
        Some(count) => *count,
        None => 0,
    }
}

/// Makes room for a seat's count. How many entries each seat has stays, also where memory is refused.
pub(crate) fn make_room(counts: &mut SeatCounts, seat: u64) -> Result<(), Memory>
    ensures there { OnOk result (IsSome (lookup (nat_eq seat) counts.new.entries)) }
    ensures counts { (s : ℕ) → counted counts.new.entries s ≡ counted counts.old.entries s }
{
    if counts.contains_key(&seat) {
        return Ok(());
    }
    match counts.insert(seat, 0) {
        Ok(_) => Ok(()),
        Err(_) => Err(AllocError),
    }
}

/// Counts one entry more of a seat, for whose count there is room.
pub(crate) fn add_one(counts: &mut SeatCounts, seat: u64)
    requires there { IsSome (lookup (nat_eq seat) counts.old.entries) }
    requires fits { counted counts.old.entries seat + 1 < 2 ^ 64 }
    ensures { HasOneMore seat counts.old.entries counts.new.entries }
{
    let count = count_at(counts, seat) + 1;
    match counts.get_mut(&seat) {
        Some(kept) => *kept = count,
        None => unreachable!(),
    }
}
