//! Closed hubs.
ghost use Rattle.std.specs.Prelude.{◌≡◌};
ghost use Rattle.hub.specs.Seats.{Stands};

use crate::receipt::Receipt;
use crate::session::{Session, Tokens};
use chain::{Chain, Entry};
use journal::Sealed;
use std::marker::Model;

/// A chain that no seat calls any more. Clauses see the chain: what it began with, and its entries.
pub struct Closed<J: Session> {
    chain: Chain,
    journal: Sealed<Entry, Tokens<J>>,
}

impl<J: Session> Model for Closed<J> {
    ghost use Rattle.std.specs.Coded.{codes};
    ghost use Rattle.contract.specs.contracts.tree.Contract as trees;
    ghost use Rattle.eutxo_types.specs.contracts.output.Output as outputs;
    ghost use Rattle.eutxo_types.specs.contracts.tx.Tx as txs;
    ghost use Rattle.ledger.specs.contracts.ask.Ask as ask_rows;
    ghost use Rattle.ledger.specs.contracts.look.Look as look_rows;
    ghost use Rattle.std.specs.Prelude.{◌≡◌};
    ghost use Rattle.chain_index.specs.LedgerSpec.Replay.{Course};

    ghost Value = { Course };

    ghost coded = { Prim.hlevel (codes, outputs.the_row.coded, txs.the_row.coded, trees.the_row.coded, ask_rows.the_row.coded, look_rows.the_row.coded) };

    ghost view = { λ c. c.chain };

    ghost invariant = { λ c. c.journal ≡ c.chain.entries };
}

// Dropped once.
impl<J: Session> Drop for Closed<J> {
    fn drop(self) {
        let Closed {
            chain: _,
            journal: _,
        } = self;
    }
}

// The closed hub of a chain, with the journal of its entries.
pub(crate) fn closed_of<J: Session>(chain: Chain, journal: Sealed<Entry, Tokens<J>>) -> Closed<J>
    requires { journal ≡ chain.entries }
    ensures { result ≡ chain }
{
    Closed { chain, journal }
}

impl<J: Session> Closed<J> {
    /// The chain, with its history: both halves of the headline hold of it (`Chain::history`). It takes no memory.
    pub fn chain(&self) -> &Chain
        ensures { result.now ≡ self.now }
    {
        &self.chain
    }

    /// The entry of a receipt: it stands at the receipt's place, with its seat, number and reply. It takes no memory and no lock.
    pub fn entry(&self, receipt: &Receipt<J>) -> &Entry
        ensures { Stands self.now.entries receipt.now result.now }
    {
        self.journal.covers(&receipt.seen);
        &self.chain.entries()[receipt.entry as usize]
    }
}
