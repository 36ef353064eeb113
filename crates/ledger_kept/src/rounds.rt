//! What waits for a round, and what a round changes.
ghost use Rattle.std.specs.Prelude.{◌≡◌, ◌++◌, ◌∷◌, ◌+◌, ◌<◌, ◌≤◌, [], OnOk, OnErr, drop, slice_get, option_copied, vec_len, vec_capacity};
ghost use Rattle.ledger_kept.specs.TallySupport.{entry_at, entries_among, waiting_at};

use crate::tally::Waiting;
use chain_index::{Ticketed, accepts};
use contract::Memory;
use std::alloc::AllocError;

/// Keeps where the text of an accepted transaction stands. A refusal for memory changes nothing.
pub(crate) fn accept(places: &mut Vec<usize>, place: usize) -> Result<(), Memory>
    ensures ok { OnOk result (places.new.items ≡ places.old.items ++ place ∷ []) }
    ensures err { OnErr result (places.new.items ≡ places.old.items) }
{
    match places.push(place) {
        Ok(_) => Ok(()),
        Err(_) => Err(AllocError),
    }
}

/// Lets a ticket wait for a round. A refusal for memory changes nothing.
pub(crate) fn wait(pending: &mut Vec<Waiting>, ticket: u64, entry: usize) -> Result<(), Memory>
    ensures ok { OnOk result (pending.new.items ≡ pending.old.items ++ waiting_at entry ticket ∷ []) }
    ensures err { OnErr result (pending.new.items ≡ pending.old.items) }
{
    match pending.push(Waiting { ticket, entry }) {
        Ok(_) => Ok(()),
        Err(_) => Err(AllocError),
    }
}

fn pending_at(pending: &[Waiting], i: usize) -> Option<&Waiting>
    ensures { option_copied result ≡ slice_get pending.now i }
{
    pending.get(i)
}

// Keeps where the text of a pending transaction stands, where its place in a round accepted it.
fn accept_at(places: &mut Vec<usize>, waiting: Option<&Waiting>, place: &Ticketed)
    requires { vec_len places.old < vec_capacity places.old }
    ensures items { places.new.items ≡ places.old.items ++ entry_at (option_copied waiting.entry) place.now }
    ensures len { vec_len places.new ≤ vec_len places.old + 1 }
    ensures capacity { vec_capacity places.new ≡ vec_capacity places.old }
{
    if let Some(waiting) = waiting {
        if accepts(&place.verdict) {
            places.push_reserved(waiting.entry);
        }
    }
}

/// Keeps where the texts of those pending transactions stand that the places of a round accepted. A refusal for memory
/// changes nothing.
pub(crate) fn accept_among(
    places: &mut Vec<usize>,
    pending: &[Waiting],
    verdicts: &[Ticketed],
) -> Result<(), Memory>
    ensures ok { OnOk result (places.new.items ≡ places.old.items ++ entries_among pending.now verdicts.now) }
    ensures err { OnErr result (places.new.items ≡ places.old.items) }
{
    places.reserve(verdicts.len())?;
    for (i, place) in verdicts.iter().enumerate() {
        accept_at(places, pending_at(pending, i), place);
    }
    Ok(())
}

/// Takes the first tickets out, so many as there are at most. Takes no memory.
pub(crate) fn take_out(pending: &mut Vec<Waiting>, count: u64)
    ensures { pending.new.items ≡ drop count pending.old.items }
{
    let len = pending.len();
    if count >= len as u64 {
        pending.clear();
    } else {
        let count = count as usize;
        pending.rotate_left(count);
        pending.truncate(len - count);
    }
}
