//! What a ledger keeps, lent to what answers a call.
ghost use Rattle.std.specs.Prelude.{◌≡◌, ◌<◌, Some, length, slice_get, option_copied};
ghost use Rattle.chain_index.specs.LedgerSpec.Replay.{pending_entry, world};
ghost use Rattle.ledger_kept.specs.Kept.{IsTally};

use crate::tally::Tally;
use crate::texts::text_at;
use chain_index::{Checked, Entry, Output, Published, Tx};
use std::marker::Model;

/// What a ledger keeps beside its index, lent: the outputs and the tick that it began with, its entries, and the tally
/// of these. Clauses see the history. `cache` has checks that were made before, by which transactions are judged; which
/// checks it has, clauses don't see.
pub struct Kept<'a> {
    genesis: &'a [Output],
    first_tick: i64,
    entries: &'a [Entry],
    tally: &'a Tally,
    cache: &'a [Checked<Published>],
}

impl<'a> Model for Kept<'a> {
    ghost use Rattle.std.specs.Coded.{codes};
    ghost use Rattle.contract.specs.contracts.tree.Contract as trees;
    ghost use Rattle.chain_index.specs.EutxoTypes.contracts.output.Output as outputs;
    ghost use Rattle.chain_index.specs.EutxoTypes.contracts.tx.Tx as txs;
    ghost use Rattle.chain_index.specs.Ledger.contracts.ask.Ask as ask_rows;
    ghost use Rattle.chain_index.specs.Ledger.contracts.look.Look as look_rows;
    ghost use Rattle.chain_index.specs.LedgerSpec.Replay.{Course};
    ghost use Rattle.ledger_kept.specs.Kept.{IsTally};

    ghost Value = { Course };

    ghost coded = { Prim.hlevel (codes, outputs.the_row.coded, txs.the_row.coded, trees.the_row.coded, ask_rows.the_row.coded, look_rows.the_row.coded) };

    ghost view = { λ a. record { genesis = a.genesis.now; first_tick = a.first_tick; entries = a.entries.now } };

    ghost invariant = { λ a. IsTally a.tally.now (record { genesis = a.genesis.now; first_tick = a.first_tick; entries = a.entries.now }) };
}

// Dropped once: the drop is written, not derived, so that no crate above proves it again.
impl<'a> Drop for Kept<'a> {
    fn drop(self) {
        let Kept {
            genesis: _,
            first_tick: _,
            entries: _,
            tally: _,
            cache: _,
        } = self;
    }
}

fn place_at(places: &[usize], number: usize) -> Option<usize>
    ensures { result ≡ slice_get places.now number }
{
    match places.get(number) {
        Some(place) => Some(*place),
        None => None,
    }
}

impl<'a> Kept<'a> {
    /// Lends what a ledger keeps.
    pub fn new(
        genesis: &'a [Output],
        first_tick: i64,
        entries: &'a [Entry],
        tally: &'a Tally,
        cache: &'a [Checked<Published>],
    ) -> Kept<'a>
        requires { IsTally tally.now (record { genesis = genesis.now; first_tick = first_tick; entries = entries.now }) }
        ensures { result ≡ record { genesis = genesis.now; first_tick = first_tick; entries = entries.now } }
    {
        Kept {
            genesis,
            first_tick,
            entries,
            tally,
            cache,
        }
    }

    /// The tick of the ledger, in POSIX milliseconds.
    pub fn tick(&self) -> i64
        ensures { result ≡ (world self.now).replay.tick }
    {
        self.tally.tick()
    }

    /// How many tickets were given so far: the next one's number.
    pub fn tickets(&self) -> u64
        ensures { result ≡ (world self.now).tickets }
    {
        self.tally.tickets()
    }

    /// How many transactions are pending.
    pub fn waiting(&self) -> usize
        ensures { result ≡ length (world self.now).replay.pending }
    {
        self.tally.pending().len()
    }

    /// The pending transaction at a place, with its ticket.
    pub fn pending_at(&self, place: usize) -> (u64, &'a Tx)
        requires { place < length (world self.now).replay.pending }
        ensures { slice_get (world self.now).replay.pending place ≡ Some (pending_entry result.0 result.1.now) }
    {
        let waiting = self.tally.pending()[place];
        (waiting.ticket, text_at(self.entries, waiting.entry))
    }

    /// The accepted transaction of a number, counted from 0.
    pub fn accepted_at(&self, number: u64) -> Option<&'a Tx>
        ensures { option_copied result ≡ slice_get (world self.now).replay.accepted number }
    {
        match place_at(self.tally.places(), number as usize) {
            Some(place) => Some(text_at(self.entries, place)),
            None => None,
        }
    }

    /// The checks that were made before.
    pub fn cache(&self) -> &'a [Checked<Published>] {
        self.cache
    }
}
