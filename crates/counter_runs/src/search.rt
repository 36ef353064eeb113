//! The search for a run to an alarm.
ghost use Rattle.std.specs.Prelude.{IfOk, IfSome};
ghost use Rattle.contract.specs.Tree.{contract_tree};
ghost use Rattle.analysis_spec.specs.PlacedRuns.{EndsAt};

use crate::walk::{Try, try_run};
use analysis_spec::Alarm;
use contract::{Contract, Items, Memory, State, Transaction};
use replay::replayed;
use run_ways::{Turns, Way, next_turns, spend};
use std::alloc::Global;

// The most points of a run at which it takes another candidate than the first.
const MOST_OTHERS: usize = 3;

/// A run from a state that ends in an alarm at its place, if one is found by no more than so much work, of which what was
/// done is taken off. A unit of work is what at most a hundred instructions do.
pub fn run_to(
    alloc: Global,
    contract: &Contract,
    state: &State,
    alarm: &Alarm,
    work: &mut u64,
) -> Result<Option<Items<Transaction>>, Memory>
    ensures { IfOk result (λ found. IfSome found (EndsAt alarm.now.kind alarm.now.place state.now (contract_tree contract.now))) }
{
    if *work == 0 {
        return Ok(None);
    }
    let mut way = Way::new(alloc, contract, state, alarm.place.as_slice(), work)?;
    for others in 0..=MOST_OTHERS {
        if others == 1 {
            way.add_numbers(alloc, work)?;
        }
        if let Some(run) = run_by(alloc, contract, state, alarm, &way, others, work)? {
            return Ok(Some(run));
        }
    }
    Ok(None)
}

// The first run to the alarm that takes another candidate than the first at no more than so many points: first with the
// first number of a choice as its first candidate, and then with the second.
fn run_by(
    alloc: Global,
    contract: &Contract,
    state: &State,
    alarm: &Alarm,
    way: &Way,
    others: usize,
    work: &mut u64,
) -> Result<Option<Items<Transaction>>, Memory>
    ensures { IfOk result (λ found. IfSome found (EndsAt alarm.now.kind alarm.now.place state.now (contract_tree contract.now))) }
{
    match run_with(alloc, contract, state, alarm, way, others, false, work)? {
        Some(run) => Ok(Some(run)),
        None => run_with(alloc, contract, state, alarm, way, others, true, work),
    }
}

// .. with one of the two.
fn run_with(
    alloc: Global,
    contract: &Contract,
    state: &State,
    alarm: &Alarm,
    way: &Way,
    others: usize,
    prefers_second: bool,
    work: &mut u64,
) -> Result<Option<Items<Transaction>>, Memory>
    ensures { IfOk result (λ found. IfSome found (EndsAt alarm.now.kind alarm.now.place state.now (contract_tree contract.now))) }
{
    let place = alarm.place.as_slice();
    let mut decided = Vec::new(alloc);
    let most = *work;
    for _ in 0..most {
        let before = *work;
        let turns = Turns::new(alloc, decided.as_slice(), prefers_second);
        let Try { run, points } = try_run(
            alloc, contract, place, way, alarm.kind, state, turns, work,
        )?;
        let found = before.saturating_sub(*work);
        let run = played_again(alloc, contract, state, alarm, way, run, found, work)?;
        if run.is_some() {
            return Ok(run);
        }
        if *work == 0 || !next_turns(&mut decided, points.as_slice(), others)? {
            return Ok(None);
        }
    }
    Ok(None)
}

// A run, if it ends in the alarm at its place as it is played again, and there is work left to do so; to find it took so
// much.
fn played_again(
    alloc: Global,
    contract: &Contract,
    state: &State,
    alarm: &Alarm,
    way: &Way,
    run: Option<Items<Transaction>>,
    found: u64,
    work: &mut u64,
) -> Result<Option<Items<Transaction>>, Memory>
    ensures { IfOk result (λ found. IfSome found (EndsAt alarm.now.kind alarm.now.place state.now (contract_tree contract.now))) }
{
    let Some(run) = run else {
        return Ok(None);
    };
    if spend(work, way.replay(run.len(), found)) {
        replayed(alloc, contract, state, run, alarm)
    } else {
        Ok(None)
    }
}
