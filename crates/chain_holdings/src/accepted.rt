//! What was accepted.
ghost use Rattle.std.specs.Prelude.{◌≡◌, IfOk};
ghost use Rattle.ledger_kept.specs.LedgerSpec.Replay.{Course, world};
ghost use Rattle.ledger_kept.specs.Kept.{IsTally};

use contract::Memory;
use ledger_kept::{Entry, Kept, Tally, Tx};
use std::alloc::Global;
use std::marker::Model;

/// An accepted transaction, lent. Clauses see it.
#[derive(Drop)]
pub(crate) struct LentTx<'a> {
    pub(crate) tx: &'a Tx,
}

impl<'a> Model for LentTx<'a> {
    ghost use Rattle.std.specs.Coded.{codes};
    ghost use Rattle.ledger_kept.specs.EutxoTypes.contracts.tx.Tx as txs;
    ghost use Rattle.ledger_kept.specs.EutxoTypes.declared.tx.Tx.{Tx};

    ghost Value = { Tx };

    ghost coded = { Prim.hlevel (codes, txs.the_row.coded) };

    ghost view = { λ a. a.tx.now };
}

/// The tally of a history, from its first tick and its entries.
pub(crate) fn tally_of(alloc: Global, tick: i64, entries: &[Entry]) -> Result<Tally, Memory>
    ensures { IfOk result (λ tally. (c : Course) → c.first_tick ≡ tick → c.entries ≡ entries.now → IsTally tally c) }
{
    let mut tally = Tally::new(alloc, tick);
    for (place, entry) in entries.iter().enumerate() {
        tally.keep(place, entry)?;
    }
    Ok(tally)
}

/// The accepted transactions, in order.
pub(crate) fn accepted<'a>(alloc: Global, kept: &Kept<'a>) -> Result<Vec<LentTx<'a>>, Memory>
    ensures { IfOk result (λ txs. txs.items ≡ (world kept.now).replay.accepted) }
{
    let mut txs = Vec::new(alloc);
    while let Some(tx) = kept.accepted_at(txs.len() as u64) {
        txs.push(LentTx { tx })?;
    }
    Ok(txs)
}
