//! Entries with their places.
ghost use Rattle.std.specs.Prelude.{◌≡◌, IfOk};
ghost use Rattle.play_endings.specs.Endings as told;

use contract::Memory;
use ledger::Entry;
use std::alloc::Global;
use std::marker::Model;

/// An entry of a history, lent, with its place there.
#[derive(Drop)]
pub struct Placed<'e> {
    pub place: usize,
    pub entry: &'e Entry,
}

impl<'e> Model for Placed<'e> {
    ghost use Rattle.std.specs.Coded.{codes};
    ghost use Rattle.ledger.specs.contracts.call.Entry as entries;
    ghost use Rattle.play_endings.specs.Endings.{PlacedEntry};

    ghost Value = { PlacedEntry };

    ghost coded = { Prim.hlevel (codes, entries.the_row.coded) };

    ghost view = { λ a. record { place = a.place; entry = a.entry.now } };
}

/// The entries of a seat with their places, in order. Answers `Memory` only where a growth was refused.
pub fn entries_of<'e>(
    alloc: Global,
    seat: u64,
    entries: &'e [Entry],
) -> Result<Vec<Placed<'e>>, Memory>
    ensures { IfOk result (λ own. own.items ≡ told.entries_of seat 0 entries.now) }
{
    let mut own = Vec::new(alloc);
    for (place, entry) in entries.iter().enumerate() {
        if entry.seat == seat {
            own.push(Placed { place, entry })?;
        }
    }
    Ok(own)
}
