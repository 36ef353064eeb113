//! Runs to all alarms.
ghost use Rattle.std.specs.Prelude.{◌≡◌, true, length, All, IfOk, IfSome};
ghost use Rattle.std.specs.List.{list_all};
ghost use Rattle.std.specs.List.Sorted.{IsSortedByKey};
ghost use Rattle.contract.specs.Tree.{contract_tree};
ghost use Rattle.marlowe_run.specs.ContractJson.WrittenInput.{input_fits, transaction_fits};
ghost use Rattle.analysis_spec.specs.PlacedRuns.{EndsAt};
ghost use Rattle.analysis_lines.specs.ToldLines.{line_at, line_of, LineFits, RunFits};
ghost use Rattle.marlowe_analyse.specs.Order.{key_cmp};
ghost use Rattle.marlowe_analyse.specs.OrderSupport.{HasKey};
ghost use Rattle.marlowe_analyse.specs.RunsSupport.{TellsAll, TellsOf};

use crate::order::{Standing, in_order, is_new};
use analysis_lines::ToldAlarm;
use analysis_spec::Alarm;
use contract::{Contract, Input, Items, Memory, State, Transaction};
use counter_runs::{is_written, run_to};
use places::keys_of;
use std::alloc::Global;

// The work of all searches together: so much for any texts, and so much more for each of their bytes. A unit of work is
// what at most a hundred instructions do.
const WORK: u64 = 1 << 22;

const WORK_OF_A_BYTE: u64 = 12;

/// The work that is spent on looking for runs that end in alarms, for texts of so many bytes: none where no runs are wanted.
pub(crate) fn work_of(length: usize, runs: bool) -> u64 {
    if runs {
        WORK.saturating_add((length as u64).saturating_mul(WORK_OF_A_BYTE))
    } else {
        0
    }
}

// The work of the search for runs that reach bounds, likewise; but no more than the last of these over the length: the longer the
// text, the more of it does each try go through.
const BOUNDS_WORK: u64 = 1 << 19;

const BOUNDS_WORK_OF_A_BYTE: u64 = 8;

const BOUNDS_WORK_OVER_BYTES: u64 = 1 << 32;

/// The work that is spent on looking for runs that reach bounds.
pub(crate) fn bounds_work_of(length: usize, runs: bool) -> u64 {
    if !runs {
        return 0;
    }
    let bytes = (length as u64).max(1);
    let most = BOUNDS_WORK_OVER_BYTES / bytes;
    BOUNDS_WORK
        .saturating_add(bytes.saturating_mul(BOUNDS_WORK_OF_A_BYTE))
        .min(most)
}

/// The alarms in the order of their places, none twice, each with a run that ends in it if one was found, by no more than
/// so much work for all of them.
pub(crate) fn told_alarms(
    alloc: Global,
    contract: &Contract,
    state: &State,
    alarms: &[Alarm],
    work: u64,
) -> Result<Vec<ToldAlarm>, Memory>
    ensures { IfOk result (λ told. TellsAll state.now (contract_tree contract.now) alarms.now told.items) }
{
    let mut left = work;
    let standings = in_order(alloc, alarms)?;
    let told = told_each(alloc, contract, state, &standings, &mut left)?;
    Ok(told)
}

// Each of these that is another than the one before it.
fn told_each(
    alloc: Global,
    contract: &Contract,
    state: &State,
    standings: &[Standing<'_>],
    left: &mut u64,
) -> Result<Vec<ToldAlarm>, Memory>
    requires keys { All HasKey standings.now }
    requires sorted { IsSortedByKey (λ s. s.key.items) key_cmp standings.now }
    ensures { IfOk result (λ told. TellsOf state.now (contract_tree contract.now) standings.now (length standings.now) told.items) }
{
    let mut told = Vec::new(alloc);
    for index in 0..standings.len() {
        if is_new(standings, index) {
            let others = standings.len().saturating_sub(index);
            let alarm = standings[index].alarm;
            let one = told_alarm(alloc, contract, state, alarm, others as u64, left)?;
            told.push(one)?;
        }
    }
    Ok(told)
}

fn told_alarm(
    alloc: Global,
    contract: &Contract,
    state: &State,
    alarm: &Alarm,
    others: u64,
    left: &mut u64,
) -> Result<ToldAlarm, Memory>
    ensures line { IfOk result (λ t. line_of t ≡ line_at (contract_tree contract.now) (alarm.now, t.run)) }
    ensures seen { IfOk result (λ t. t.alarm ≡ alarm.now) }
    ensures ends { IfOk result (λ t. IfSome t.run (EndsAt alarm.now.kind alarm.now.place state.now (contract_tree contract.now))) }
    ensures fits { IfOk result LineFits }
{
    let run = written_run(alloc, contract, state, alarm, others, left)?;
    let place = keys_of(alloc, contract, alarm.place.as_slice())?;
    let alarm = copy_of(alloc, alarm)?;
    Ok(ToldAlarm {
        alarm,
        place,
        run,
        head: Some(0),
    })
}

fn copy_of(alloc: Global, alarm: &Alarm) -> Result<Alarm, Memory>
    ensures { IfOk result (λ copy. copy ≡ alarm.now) }
{
    let place = Vec::from_slice(alloc, alarm.place.as_slice())?;
    Ok(Alarm {
        kind: alarm.kind,
        place: Items::from_vec(place),
    })
}

// A run that ends in an alarm and that JSON can write, if one is found by an even share of the work that is left.
fn written_run(
    alloc: Global,
    contract: &Contract,
    state: &State,
    alarm: &Alarm,
    others: u64,
    left: &mut u64,
) -> Result<Option<Items<Transaction>>, Memory>
    ensures ends { IfOk result (λ o. IfSome o (EndsAt alarm.now.kind alarm.now.place state.now (contract_tree contract.now))) }
    ensures fits { IfOk result (λ o. IfSome o RunFits) }
{
    let given = *left / others.max(1);
    let mut work = given;
    let found = run_to(alloc, contract, state, alarm, &mut work)?;
    *left = left.saturating_sub(given.saturating_sub(work));
    Ok(if_written(found))
}

// A run, if JSON has all its numbers.
fn if_written(found: Option<Items<Transaction>>) -> Option<Items<Transaction>>
    ensures run { IfSome result (λ run. found ≡ Some run) }
    ensures fits { IfSome result RunFits }
{
    match found {
        Some(run) => {
            if has_all_numbers(run.as_slice()) {
                Some(run)
            } else {
                None
            }
        }
        None => None,
    }
}

// Whether JSON has all numbers of a run.
fn has_all_numbers(run: &[Transaction]) -> bool
    ensures { result ≡ true → RunFits run.now }
{
    for transaction in run {
        let written = has_numbers(transaction.inputs.as_slice());
        if !written {
            return false;
        }
    }
    true
}

fn has_numbers(inputs: &[Input]) -> bool
    ensures { result ≡ true → list_all input_fits inputs.now ≡ true }
{
    for input in inputs {
        let written = has_number(input);
        if !written {
            return false;
        }
    }
    true
}

#[tactic(auto, using(crate::proofs::WrittenLemmas::fits_so))]
fn has_number(input: &Input) -> bool
    ensures { result ≡ input_fits input.now }
{
    match input {
        Input::Deposit(_, _, _, number) => is_written(*number),
        Input::Choice(_, number) => is_written(*number),
        Input::Notify => true,
    }
}
