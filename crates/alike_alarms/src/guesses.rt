//! Which alarm may be told for each.
use crate::numbers::{Entry, entries_of};
use crate::seen::Seen;
use contract::{Contract, Memory};
use std::alloc::Global;

// How many parts are compared in all: more than there are in any text that is nested no deeper than 127.
const MOST_PARTS: usize = 1 << 24;

/// Of each alarm the index of the one that may be told for it, by the numbers of their parts: the first of these with a run,
/// else the first. Of itself where there is no other.
pub(crate) fn guesses_of(
    alloc: Global,
    contract: &Contract,
    seen: &[Seen<'_>],
) -> Result<Vec<usize>, Memory> {
    let mut entries = entries_of(alloc, contract, seen)?;
    entries.sort()?;
    let mut guesses = Vec::new(alloc);
    for index in 0..seen.len() {
        guesses.push(index)?;
    }
    put_guesses(&entries, &mut guesses);
    Ok(guesses)
}

fn put_guesses(entries: &[Entry], guesses: &mut Vec<usize>) {
    let mut first: Option<Entry> = None;
    let mut left = MOST_PARTS;
    for entry in entries {
        match first {
            Some(one) if one.number == entry.number && one.kind == entry.kind => {
                put_guess(one, *entry, &mut left, guesses);
            }
            _ => first = Some(*entry),
        }
    }
}

fn put_guess(first: Entry, entry: Entry, left: &mut usize, guesses: &mut Vec<usize>) {
    if entry.parts > *left {
        return;
    }
    *left -= entry.parts;
    if let Some(guess) = guesses.get_mut(entry.index) {
        *guess = first.index;
    }
}
