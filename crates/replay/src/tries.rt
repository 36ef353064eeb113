//! Inputs that are tried at the cases of a When, up to the one that takes it.
ghost use Rattle.std.specs.Prelude.{◌≡◌, ◌<◌, true, length, IfOk, IfSome};
ghost use Rattle.contract.specs.Tree.{contract_tree};
ghost use Rattle.semantics.specs.Evaluation.Path.{waits_for};
ghost use Rattle.semantics.specs.Applying.{taken_numbers, taken_warnings};
ghost use Rattle.replay.specs.ComingSupport.{ComesAtAction, IsTaken, IsToldBy, PassesBy, TakenBy, TriedTo, waits};

use crate::kinds::{is_leaving, warns};
use analysis_spec::AlarmKind;
use contract::{Contract, Input, Interval, Memory, SemFault, State};
use semantics::evaluation::Parts;
use semantics::{Log, Plain, matches, take};
use std::alloc::{AllocError, Global};

/// Whether an alarm comes at the action of a case: the input comes to it, and is taken there with a warning, or a number
/// leaves 128 bits there.
pub(crate) fn tells_at_action(
    alloc: Global,
    contract: &Contract,
    state: &mut State,
    interval: Interval,
    input: &Input,
    index: usize,
    kind: AlarmKind,
) -> Result<bool, Memory>
    ensures { IfOk result (λ yes. yes ≡ true → ComesAtAction kind index interval state.old (contract_tree contract.now) input.now) }
{
    let comes = comes_to(contract, state, interval, input, index);
    if !comes {
        return Ok(false);
    }
    let parts = Plain::new();
    let case = parts.case(contract, index);
    match matches(&parts, input, case.action, state, interval) {
        Ok(taken) => {
            if taken {
                tells_of_taking(alloc, input, state, kind)
            } else {
                Ok(false)
            }
        }
        Err(_) => Ok(is_leaving(kind)),
    }
}

/// Takes an input by a case, and returns what follows it; none where the case isn't the first that takes it.
#[tactic(auto, using(crate::proofs::TriesLemmas::takes_case))]
pub(crate) fn takes<'c>(
    alloc: Global,
    contract: &'c Contract,
    state: &mut State,
    interval: Interval,
    input: &Input,
    index: usize,
) -> Result<Option<&'c Contract>, Memory>
    ensures { IfOk result (λ then. IfSome then (λ d.
        TakenBy index interval state.old (contract_tree contract.now) input.now state.new (contract_tree d.now))) }
{
    let Some(then) = taken_by(contract, state, interval, input, index) else {
        return Ok(None);
    };
    let mut log = Log::new(alloc);
    match take(input, state, &mut log) {
        Ok(()) => Ok(Some(then)),
        Err(SemFault::Memory) => Err(AllocError),
        Err(_) => Ok(None),
    }
}

// What follows a case, if it is the first that takes an input.
fn taken_by<'c>(
    contract: &'c Contract,
    state: &State,
    interval: Interval,
    input: &Input,
    index: usize,
) -> Option<&'c Contract>
    ensures { IfSome result (λ d. IsTaken index interval state.now (contract_tree contract.now) input.now (contract_tree d.now)) }
{
    let comes = comes_to(contract, state, interval, input, index);
    if !comes {
        return None;
    }
    let parts = Plain::new();
    let case = parts.case(contract, index);
    match matches(&parts, input, case.action, state, interval) {
        Ok(taken) => { if taken { Some(case.then) } else { None } }
        Err(_) => None,
    }
}

// Whether an input, once a case takes it, tells of an alarm.
fn tells_of_taking(
    alloc: Global,
    input: &Input,
    state: &mut State,
    kind: AlarmKind,
) -> Result<bool, Memory>
    ensures { IfOk result (λ yes. yes ≡ true → IsToldBy kind (taken_numbers state.old input.now) (taken_warnings input.now)) }
{
    let mut log = Log::new(alloc);
    match take(input, state, &mut log) {
        Ok(()) => Ok(warns(log.warnings.as_slice(), kind)),
        Err(SemFault::Leaves128) => Ok(is_leaving(kind)),
        Err(SemFault::Memory) => Err(AllocError),
        Err(_) => Ok(false),
    }
}

// Whether a contract waits for inputs, and an input comes to the case at an index: none before it takes it.
#[tactic(auto, using(crate::proofs::TriesLemmas::tried_none))]
fn comes_to(
    contract: &Contract,
    state: &State,
    interval: Interval,
    input: &Input,
    index: usize,
) -> bool
    ensures waits { result ≡ true → waits interval (contract_tree contract.now) ≡ true }
    ensures stands { result ≡ true → index < length (waits_for (contract_tree contract.now)) }
    ensures tried { result ≡ true → TriedTo interval state.now input.now (waits_for (contract_tree contract.now)) index }
{
    let waiting = waits(contract, interval);
    if !waiting || index >= Plain::new().count_cases(contract) {
        return false;
    }
    for before in 0..index {
        let passed = passes_by(contract, state, interval, input, before);
        if !passed {
            return false;
        }
    }
    true
}

// Whether a contract is a When that waits for inputs.
fn waits(contract: &Contract, interval: Interval) -> bool
    ensures { result ≡ waits interval (contract_tree contract.now) }
{
    match contract {
        Contract::When(_, timeout, _) => interval.to < *timeout,
        _ => false,
    }
}

// Whether a case is tried on an input and doesn't take it.
fn passes_by(
    contract: &Contract,
    state: &State,
    interval: Interval,
    input: &Input,
    index: usize,
) -> bool
    requires { index < length (waits_for (contract_tree contract.now)) }
    ensures { result ≡ true → PassesBy interval state.now input.now (waits_for (contract_tree contract.now)) index }
{
    let parts = Plain::new();
    let case = parts.case(contract, index);
    match matches(&parts, input, case.action, state, interval) {
        Ok(taken) => !taken,
        Err(_) => false,
    }
}
