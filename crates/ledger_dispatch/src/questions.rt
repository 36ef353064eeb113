//! What a question is answered.
ghost use Rattle.std.specs.Prelude.{◌≡◌, IfOk, map};
ghost use Rattle.ledger_views.specs.Eutxo.Judgement.{found};
ghost use Rattle.ledger_views.specs.LedgerSpec.Replay.{world, moment_of};
ghost use Rattle.ledger_views.specs.LedgerSpec.Views.{with_found, pool_front};
ghost use Rattle.ledger_views.specs.ChainIndex.Contents.{moment_at};
ghost use Rattle.ledger_views.specs.LedgerKept.Kept.{IsIndexOf};

use crate::dispatch::first_of;
use contract::{Memory, TryClone};
use ledger_views::{Index, IndexAt, Kept, Published, Resolved, Tx, index_reads_alike, resolve};
use std::alloc::Global;

// What is found of what a transaction names, by what is indexed at a tick.
fn found_at(
    alloc: Global,
    index: &Index,
    tick: &i64,
    tx: &Tx,
) -> Result<Resolved<Published>, Memory>
    ensures { IfOk result (λ resolved. resolved ≡ found (moment_at index.now.present tick.now) tx.now) }
{
    resolve(alloc, &IndexAt { index, tick: *tick }, tx)
}

/// What is found of what a transaction names, by what stands: the unspent outputs of its inputs, and of the scripts
/// that its outputs and those name the ones that are published. What stands is lent, with the index that is of it.
/// Answers `Memory` only where a growth was refused.
pub fn resolution(
    alloc: Global,
    kept: &Kept<'_>,
    index: &Index,
    tx: &Tx,
) -> Result<Resolved<Published>, Memory>
    requires tied { IsIndexOf index.now.present (world kept.now) }
    ensures { IfOk result (λ resolved. resolved ≡ found (moment_of (world kept.now)) tx.now) }
{
    index_reads_alike();
    found_at(alloc, index, &kept.tick(), tx)
}

// A transaction with what is found of what it names.
fn job_of(
    alloc: Global,
    kept: &Kept<'_>,
    index: &Index,
    tx: &Tx,
) -> Result<(Tx, Resolved<Published>), Memory>
    requires tied { IsIndexOf index.now.present (world kept.now) }
    ensures { IfOk result (λ found. found ≡ with_found (world kept.now) tx.now) }
{
    let found = resolution(alloc, kept, index, tx)?;
    Ok((tx.try_clone()?, found))
}

/// The first so many of the pending transactions, or all where there are fewer, in order, each with what is found of
/// what it names, at this one moment. What stands is lent, with the index that is of it. Answers `Memory` only where a
/// growth was refused.
pub fn front(
    alloc: Global,
    kept: &Kept<'_>,
    index: &Index,
    count: u64,
) -> Result<Vec<(Tx, Resolved<Published>)>, Memory>
    requires tied { IsIndexOf index.now.present (world kept.now) }
    ensures { IfOk result (λ jobs. jobs.items ≡ pool_front (world kept.now) count) }
{
    let first = first_of(kept, count);
    let mut jobs = Vec::with_capacity(alloc, first)?;
    for i in 0..first {
        let (_, tx) = kept.pending_at(i);
        let job = job_of(alloc, kept, index, tx)?;
        jobs.push(job)?;
    }
    Ok(jobs)
}
