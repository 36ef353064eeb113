//! Checks by several workers at once.
ghost use Rattle.std.specs.Prelude.{◌≡◌, ◌<◌, ◌≤◌, IfOk};
ghost use Rattle.eutxo.specs.Checks.{check_of};
ghost use Rattle.parallel_check.specs.Jobs.{checks_of};

use crate::batch::Batch;
use crate::dealing::{all_ok, deal, gather};
use crate::gate::Gate;
use eutxo::{Checked, Memory, Resolved, Tx, Validator, check_owned};
use std::alloc::Global;
use std::sync::Wait;
use std::thread;
use std::thread::Threads;

// The check of one job, between the two calls of the gate.
fn check_one<V: Validator + Drop, G: Gate>(
    alloc: Global,
    gate: &G,
    place: usize,
    job: (Tx, Resolved<V>),
) -> Result<Checked<V>, Memory>
    ensures { IfOk result (λ c. c ≡ check_of V.judges job.0 job.1) }
{
    let (tx, found) = job;
    gate.enter(place);
    let checked = check_owned(alloc, tx, found);
    gate.leave(place);
    checked
}

// The checks of one worker's jobs, one after another.
fn check_batch<V: Validator + Drop, G: Gate>(
    alloc: Global,
    gate: &G,
    mut jobs: Batch<(Tx, Resolved<V>)>,
) -> Result<Batch<Checked<V>>, Memory>
    ensures { IfOk result (λ checks. checks ≡ checks_of V.judges jobs) }
{
    let mut checks = Batch::with_capacity(alloc, jobs.len())?;
    for _ in 0..jobs.len() {
        if let Some((place, job)) = jobs.pop() {
            checks.push(place, check_one(alloc, gate, place, job)?)?;
        }
    }
    Ok(checks)
}

/// The checks of all jobs, each a transaction with its resolution, in the order of the jobs: what `check`
/// answers for each.
///
/// So many workers, 1 to 16, check at once, and no more of them than there are jobs: the job at a place goes
/// to the worker of the place modulo their number, who checks its own one after another. All but one of them
/// have a thread of their own, and that one the caller's; a worker whose thread can't be made runs on the
/// thread that would have made it. The call returns once all have ended, and at once where there are no jobs.
/// The gate is called round each check, with the job's place.
///
/// `Memory` where a growth was refused, to whichever worker; then no check is answered.
pub fn check_all<R: Threads + Wait + Sync, V: Validator + Drop + Send + Sync, G: Gate>(
    rt: &R,
    alloc: Global,
    gate: &G,
    workers: usize,
    jobs: Vec<(Tx, Resolved<V>)>,
) -> Result<Vec<Checked<V>>, Memory>
    requires some { 0 < workers }
    requires few { workers ≤ 16 }
    ensures { IfOk result (λ checks.
        checks.items ≡ checks_of V.judges jobs.items) }
{
    let count = jobs.len();
    if count == 0 {
        return Ok(Vec::new(alloc));
    }
    let batches = deal(alloc, jobs, workers.min(count))?;
    let answers = thread::map_vec(
        rt,
        batches,
        &|batch: Batch<(Tx, Resolved<V>)>| -> Result<Batch<Checked<V>>, Memory>
            ensures { IfOk result (λ checks.
                checks ≡ checks_of V.judges batch) }
        { check_batch(alloc, gate, batch) },
    )?;
    let checks = all_ok(alloc, answers)?;
    gather(alloc, checks, count)
}
