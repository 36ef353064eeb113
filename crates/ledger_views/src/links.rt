//! The transactions of a thread.
ghost use Rattle.std.specs.Prelude.{◌≡◌, true, All, IfOk, Some, is_some, map};
ghost use Rattle.ledger_kept.specs.EutxoTypes.Parts.{Instance};
ghost use Rattle.ledger_kept.specs.Roles.Steps.{marlowe};
ghost use Rattle.ledger_kept.specs.LedgerLaws.Threads.{IsMade, thread};
ghost use Rattle.ledger_kept.specs.LedgerSpec.Replay.{past_of, published_at, world};
ghost use Rattle.ledger_kept.specs.ChainIndex.Laws.{link_at};
ghost use Rattle.ledger_kept.specs.Kept.{IsIndexOf};

use contract::Memory;
use ledger_kept::{Index, Kept, OutputRef, StepPlace, Tx, index_follows_threads};
use std::alloc::Global;
use std::marker::Model;

/// A transaction of a thread, with the thread's output that it spends. Clauses see the two.
#[derive(Drop)]
pub struct ThreadLink<'a> {
    spends: OutputRef,
    tx: &'a Tx,
}

impl<'a> Model for ThreadLink<'a> {
    ghost use Rattle.std.specs.Coded.{codes};
    ghost use Rattle.ledger_kept.specs.EutxoTypes.contracts.tx.Tx as txs;
    ghost use Rattle.ledger_kept.specs.LedgerLaws.Threads.{Link};

    ghost Value = { Link };

    ghost coded = { Prim.hlevel (codes, txs.the_row.coded) };

    ghost view = { λ a. record { spends = a.spends; tx = a.tx.now } };
}

impl<'a> ThreadLink<'a> {
    fn new(spends: OutputRef, tx: &'a Tx) -> ThreadLink<'a>
        ensures { result ≡ record { spends = spends; tx = tx.now } }
    {
        ThreadLink { spends, tx }
    }

    /// The thread's output that the transaction spends.
    pub fn spends(&self) -> &OutputRef
        ensures { result.now ≡ self.now.spends }
    {
        &self.spends
    }

    /// The transaction.
    pub fn tx(&self) -> &'a Tx
        ensures { result.now ≡ self.now.tx }
    {
        self.tx
    }
}

// The step at a place, with its transaction.
fn link_at<'a>(kept: &Kept<'a>, step: &StepPlace) -> ThreadLink<'a>
    requires { is_some (link_at (world kept.now).replay.accepted step.now) ≡ true }
    ensures { link_at (world kept.now).replay.accepted step.now ≡ Some result }
{
    match kept.accepted_at(step.number) {
        Some(tx) => ThreadLink::new(step.spends, tx),
        None => unreachable!(),
    }
}

// The steps at these places, each with its transaction.
fn links_at<'a>(
    alloc: Global,
    kept: &Kept<'a>,
    steps: &[StepPlace],
) -> Result<Vec<ThreadLink<'a>>, Memory>
    requires { All (λ x. is_some (link_at (world kept.now).replay.accepted x) ≡ true) steps.now }
    ensures { IfOk result (λ links. map (λ l. Some l) links.items
        ≡ map (link_at (world kept.now).replay.accepted) steps.now) }
{
    let mut links = Vec::new(alloc);
    for step in steps {
        links.push(link_at(kept, step))?;
    }
    Ok(links)
}

/// The transactions of the thread from a contract output, in order. Each costs two look-ups.
pub fn thread<'a>(
    alloc: Global,
    kept: &Kept<'a>,
    index: &Index,
    start: &OutputRef,
) -> Result<Vec<ThreadLink<'a>>, Memory>
    requires tied { IsIndexOf index.now.present (world kept.now) }
    requires made { (c : Instance) × IsMade (past_of (world kept.now)) start.now c }
    ensures { IfOk result (λ links. links.items
        ≡ thread marlowe (published_at (world kept.now).published) (past_of (world kept.now)) start.now) }
{
    // touch: the moves lead along the thread
    index_follows_threads();
    let steps = index.steps(alloc, start)?;
    links_at(alloc, kept, steps.as_slice())
}
