//! Where the texts of transactions stand.
ghost use Rattle.std.specs.Prelude.{◌≡◌, Some, IsSome, slice_get, option_copied};
ghost use Rattle.ledger_kept.specs.Kept.{text_in, text_at};

use chain_index::{Call, Entry, Tx};

fn entry_at(entries: &[Entry], place: usize) -> Option<&Entry>
    ensures { option_copied result ≡ slice_get entries.now place }
{
    entries.get(place)
}

// The transaction that a call submits or enqueues.
fn text_in(call: &Call) -> Option<&Tx>
    ensures { option_copied result ≡ text_in call.now }
{
    match call {
        Call::Submit(tx) => Some(tx),
        Call::Enqueue(tx) => Some(tx),
        _ => None,
    }
}

/// The transaction that the entry at a place submits or enqueues.
pub(crate) fn text_at(entries: &[Entry], place: usize) -> &Tx
    requires { IsSome (text_at entries.now place) }
    ensures { text_at entries.now place ≡ Some result.now }
{
    match entry_at(entries, place) {
        Some(entry) => match text_in(&entry.call) {
            Some(tx) => tx,
            None => unreachable!(),
        },
        None => unreachable!(),
    }
}
