//! Runs that are played again.
ghost use Rattle.std.specs.Prelude.{◌≡◌, ◌++◌, true, IfOk, IfSome};
ghost use Rattle.contract.specs.Tree.{contract_tree};
ghost use Rattle.contract.specs.Collections.Answers.{AsideBy};
ghost use Rattle.semantics.specs.Walk.{standing, answer_of};
ghost use Rattle.analysis_spec.specs.Runs.{walk_from};
ghost use Rattle.analysis_spec.specs.Marks.{marks_of};
ghost use Rattle.analysis_spec.specs.CounterRuns.{Tells};
ghost use Rattle.analysis_spec.specs.PlacedRuns.{TellsAt, EndsAt};
ghost use Rattle.analysis_spec.specs.Promises.{ComesAt};

use crate::kinds::{is_leaving, warns};
use crate::placed::comes;
use analysis_spec::{Alarm, AlarmKind, PathStep};
use contract::{Contract, Items, Memory, Outcome, SemFault, State, Transaction};
use semantics::{Plain, Steps, fix};
use std::alloc::{AllocError, Global};
use trace::{Left, after};

/// Plays a run from a state, transaction by transaction, and tells whether it ends in an alarm at the alarm's place: each
/// transaction before the last is accepted, and the last is accepted with a warning of the kind that comes from there, or,
/// for `Leaves128`, is refused because a number leaves 128 bits, first there. No run ends so without a transaction.
pub fn ends_at(
    alloc: Global,
    contract: &Contract,
    state: &State,
    run: &[Transaction],
    alarm: &Alarm,
) -> Result<bool, Memory>
    ensures { IfOk result (λ yes. yes ≡ true → EndsAt alarm.now.kind alarm.now.place state.now (contract_tree contract.now) run.now) }
{
    let Some((last, before)) = run.split_last() else {
        return Ok(false);
    };
    match after(alloc, contract, state, before) {
        Ok(left) => tells_at(alloc, left, last, alarm),
        Err(refused) => match refused.fault {
            SemFault::Memory => Err(AllocError),
            _ => Ok(false),
        },
    }
}

/// A run, if it ends in an alarm, as `ends_at` tells.
pub fn replayed(
    alloc: Global,
    contract: &Contract,
    state: &State,
    run: Items<Transaction>,
    alarm: &Alarm,
) -> Result<Option<Items<Transaction>>, Memory>
    ensures { IfOk result (λ found. IfSome found (EndsAt alarm.now.kind alarm.now.place state.now (contract_tree contract.now))) }
{
    if ends_at(alloc, contract, state, run.as_slice(), alarm)? {
        Ok(Some(run))
    } else {
        Ok(None)
    }
}

// Whether a transaction tells of an alarm at its place, from where others left the contract.
fn tells_at(
    alloc: Global,
    left: Left<'_>,
    last: &Transaction,
    alarm: &Alarm,
) -> Result<bool, Memory>
    ensures { IfOk result (λ yes. yes ≡ true → TellsAt alarm.now.kind alarm.now.place left.entry.path
        (standing left.entry.state (contract_tree left.entry.contract.now)) last.now) }
{
    let Left {
        mut state,
        contract,
        path,
    } = left;
    if tells(alloc, contract, &state, last, alarm.kind)? {
        comes_at(alloc, contract, &mut state, path.as_slice(), last, alarm)
    } else {
        Ok(false)
    }
}

// Whether an alarm comes at its place in a transaction on a part of the contract, to which this path leads.
#[tactic(auto, using(crate::proofs::RunLemmas::fixed_marks))]
fn comes_at(
    alloc: Global,
    contract: &Contract,
    state: &mut State,
    path: &[PathStep],
    last: &Transaction,
    alarm: &Alarm,
) -> Result<bool, Memory>
    ensures { IfOk result (λ yes. yes ≡ true → ComesAt alarm.now.kind alarm.now.place
        (marks_of path.now (standing state.old (contract_tree contract.now)) last.now)) }
{
    let Some(rest) = behind(path, alarm.place.as_slice()) else {
        return Ok(false);
    };
    let inputs = last.inputs.as_slice();
    match fix(last.interval, state) {
        Ok(interval) => comes(alloc, contract, state, interval, inputs, rest, alarm.kind),
        Err(_) => Ok(false),
    }
}

// What is left of a place behind a path, if the path leads towards it.
fn behind<'a>(path: &[PathStep], place: &'a [PathStep]) -> Option<&'a [PathStep]>
    ensures { IfSome result (λ rest. place.now ≡ path.now ++ rest.now) }
{
    if path.len() > place.len() {
        return None;
    }
    for index in 0..path.len() {
        if path[index] != place[index] {
            return None;
        }
    }
    Some(&place[path.len()..])
}

// Whether a transaction tells of an alarm.
#[tactic(auto, using(crate::proofs::RunLemmas::warned))]
fn tells(
    alloc: Global,
    contract: &Contract,
    state: &State,
    last: &Transaction,
    kind: AlarmKind,
) -> Result<bool, Memory>
    ensures { IfOk result (λ yes. yes ≡ true → Tells kind (walk_from (standing state.now (contract_tree contract.now)) last.now)) }
{
    match played(alloc, contract, state, last) {
        Ok(outcome) => Ok(warns(outcome.warnings.as_slice(), kind)),
        Err(SemFault::Memory) => Err(AllocError),
        Err(SemFault::Leaves128) => Ok(is_leaving(kind)),
        Err(_) => Ok(false),
    }
}

// The outcome of a transaction.
fn played<'c>(
    alloc: Global,
    contract: &'c Contract,
    state: &State,
    transaction: &Transaction,
) -> Result<Outcome<&'c Contract>, SemFault>
    ensures answer { AsideBy SemFault.Memory (λ outcome. standing outcome.state (contract_tree outcome.place.now)) result
        (answer_of (walk_from (standing state.now (contract_tree contract.now)) transaction.now)) }
    ensures warnings { IfOk result (λ outcome.
        outcome.warnings ≡ (walk_from (standing state.now (contract_tree contract.now)) transaction.now).warnings) }
{
    Plain::new().compute(
        alloc,
        &contract,
        state,
        transaction.interval,
        transaction.inputs.as_slice(),
    )
}
