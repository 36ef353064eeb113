//! Seats.
ghost use Rattle.std.specs.Prelude.{◌≡◌, length};
ghost use Rattle.hub.specs.HubSupport.{Fits};

use crate::answer::Answer;
use crate::session::{Session, Tokens};
use chain::Entry;
use journal::{Beginning, Sealed};
use std::marker::Model;
use std::sync::ledger::Share;

/// The right to call in one seat's name, with the list of the calls that were answered. It is not copied, and can be moved to a thread. Clauses see its
/// number and that list.
#[derive(Drop)]
pub struct Seat<J: Session> {
    pub(crate) number: u64,
    pub(crate) answers: Vec<Answer>,
    pub(crate) share: Share<Tokens<J>>,
    pub(crate) seen: Beginning<Entry, Tokens<J>>,
}

impl<J: Session> Model for Seat<J> {
    ghost use Rattle.std.specs.Coded.{codes};
    ghost use Rattle.contract.specs.contracts.tree.Contract as trees;
    ghost use Rattle.eutxo_types.specs.contracts.output.Output as outputs;
    ghost use Rattle.eutxo_types.specs.contracts.tx.Tx as txs;
    ghost use Rattle.ledger.specs.contracts.ask.Ask as ask_rows;
    ghost use Rattle.ledger.specs.contracts.look.Look as look_rows;
    ghost use Rattle.std.specs.Prelude.{◌≡◌, length};
    ghost use Rattle.hub.specs.Seats.{SeatRecord, seat_record};
    ghost use Rattle.hub.specs.HubSupport.{Fits};

    ghost Value = { SeatRecord };

    ghost coded = { Prim.hlevel (codes, outputs.the_row.coded, txs.the_row.coded, trees.the_row.coded, ask_rows.the_row.coded, look_rows.the_row.coded) };

    ghost view = { λ s. seat_record s.number s.answers.items };

    ghost invariant = { λ s. (s.share.parts ≡ 1) × (s.share.amount ≡ length s.answers.items) × Fits s.seen (seat_record s.number s.answers.items) };
}

impl<J: Session> Seat<J> {
    /// Its number: seats count from 0.
    pub fn number(&self) -> u64
        ensures { result ≡ self.now.number }
    {
        self.number
    }

    /// Its answered calls, in order.
    pub fn answers(&self) -> &[Answer]
        ensures { result.now ≡ self.now.answers }
    {
        self.answers.as_slice()
    }

    // The seat's answers stand in the history.
    pub(crate) fn check(&self, history: &Sealed<Entry, Tokens<J>>)
        ensures { Fits history.now self.now }
    {
        history.covers(&self.seen);
    }

    pub(crate) fn into_share(self) -> Share<Tokens<J>>
        ensures { (result.parts ≡ 1) × (result.amount ≡ length self.answers) }
    {
        let Seat {
            number: _,
            answers: _,
            share,
            seen: _,
        } = self;
        share
    }
}
