//! Receipts.
ghost use Rattle.std.specs.Prelude.{◌≡◌};

use crate::carried::Carried;
use crate::session::{Session, Tokens};
use chain::{Entry, Reply};
use journal::Beginning;
use std::marker::Model;

/// What a call was told: the place of its entry in the history, the seat, how many entries of the seat stand before it, and the reply. Once the hub is
/// closed, the entry stands there (`Closed::entry`). It is made by the hub alone.
pub struct Receipt<J: Session> {
    pub(crate) entry: u64,
    pub(crate) seat: u64,
    pub(crate) number: u64,
    pub(crate) reply: Carried<Reply>,
    pub(crate) seen: Beginning<Entry, Tokens<J>>,
}

impl<J: Session> Model for Receipt<J> {
    ghost use Rattle.std.specs.Coded.{codes};
    ghost use Rattle.contract.specs.contracts.tree.Contract as trees;
    ghost use Rattle.eutxo_types.specs.contracts.output.Output as outputs;
    ghost use Rattle.eutxo_types.specs.contracts.tx.Tx as txs;
    ghost use Rattle.ledger.specs.contracts.ask.Ask as ask_rows;
    ghost use Rattle.ledger.specs.contracts.look.Look as look_rows;
    ghost use Rattle.ledger.specs.declared.call.Entry.{Entry};
    ghost use Rattle.hub.specs.Seats.{ReceiptRecord, Stands};

    ghost Value = { ReceiptRecord };

    ghost coded = { Prim.hlevel (codes, outputs.the_row.coded, txs.the_row.coded, trees.the_row.coded, ask_rows.the_row.coded, look_rows.the_row.coded) };

    ghost view = { λ r. record { entry = r.entry; seat = r.seat; number = r.number; reply = r.reply } };

    ghost invariant = { λ r. (e : Entry) × Stands r.seen (record { entry = r.entry; seat = r.seat; number = r.number; reply = r.reply }) e };
}

// Dropped once: the drop is written, not derived, so that no crate above proves it again.
impl<J: Session> Drop for Receipt<J> {
    fn drop(self) {
        let Receipt {
            entry: _,
            seat: _,
            number: _,
            reply: _,
            seen: _,
        } = self;
    }
}

impl<J: Session> Receipt<J> {
    /// The place of the entry in the history.
    pub fn entry(&self) -> u64
        ensures { result ≡ self.now.entry }
    {
        self.entry
    }

    /// The number of the seat that called.
    pub fn seat(&self) -> u64
        ensures { result ≡ self.now.seat }
    {
        self.seat
    }

    /// How many entries of the seat stand before it.
    pub fn number(&self) -> u64
        ensures { result ≡ self.now.number }
    {
        self.number
    }

    /// The reply.
    pub fn reply(&self) -> &Reply
        ensures { result.now ≡ self.now.reply }
    {
        self.reply.get()
    }
}
