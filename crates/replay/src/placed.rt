//! Whether a transaction tells of an alarm at a place: it is followed along the steps that lead there, and nowhere else.
ghost use Rattle.std.specs.Prelude.{◌≡◌, [], ◌∷◌, true, IfOk, IfNone, IfSome};
ghost use Rattle.contract.specs.Tree.{contract_tree, observation_tree};
ghost use Rattle.semantics.specs.Evaluation.Evaluation.{holds};
ghost use Rattle.replay.specs.ComingSupport.{ComesAhead, ComesHere, ComesBehind, GoesBy, branch, step_from};

use crate::kinds::{is_leaving, warns};
use crate::tries::{takes, tells_at_action};
use analysis_spec::{AlarmKind, PathStep};
use contract::{Contract, Input, Interval, Memory, Observation, SemFault, State};
use semantics::evaluation::holds;
use semantics::{Log, Plain, reduce};
use std::alloc::{AllocError, Global};

/// Whether an alarm comes at a place, of a contract that goes on in a fixed interval with the inputs that are left.
#[tactic(auto, using(crate::proofs::ComingLemmas::ahead_here, crate::proofs::ComingLemmas::ahead_more))]
pub(crate) fn comes(
    alloc: Global,
    contract: &Contract,
    state: &mut State,
    interval: Interval,
    inputs: &[Input],
    place: &[PathStep],
    kind: AlarmKind,
) -> Result<bool, Memory>
    ensures { IfOk result (λ yes. yes ≡ true → ComesAhead kind place.now interval state.old (contract_tree contract.now) inputs.now) }
{
    if let Some(index) = action_of(place) {
        return action_tells(alloc, contract, state, interval, inputs, index, kind);
    }
    let Some((step, rest)) = first_of(place) else {
        return tells_here(alloc, contract, state, interval, kind);
    };
    match pass(alloc, contract, state, interval, inputs, step)? {
        Some((then, left)) => comes(alloc, then, state, interval, left, rest, kind),
        None => Ok(false),
    }
}

// The first step of a place, and those behind it.
fn first_of(place: &[PathStep]) -> Option<(PathStep, &[PathStep])>
    ensures some { IfSome result (λ p. place.now ≡ p.0 ∷ p.1.now) }
    ensures none { IfNone result (place.now ≡ []) }
{
    match place {
        [] => None,
        [step, rest @ ..] => Some((*step, rest)),
    }
}

// The index of the case, if a place is the action of one.
fn action_of(place: &[PathStep]) -> Option<usize>
    ensures { IfSome result (λ index. place.now ≡ PathStep.Action index ∷ []) }
{
    match place {
        [PathStep::Action(index)] => Some(*index),
        _ => None,
    }
}

// Whether the next reduction tells of an alarm.
#[tactic(auto, using(crate::proofs::ComingLemmas::leaves_here, crate::proofs::ComingLemmas::warns_here))]
fn tells_here(
    alloc: Global,
    contract: &Contract,
    state: &mut State,
    interval: Interval,
    kind: AlarmKind,
) -> Result<bool, Memory>
    ensures { IfOk result (λ yes. yes ≡ true → ComesHere kind interval state.old (contract_tree contract.now)) }
{
    let mut log = Log::new(alloc);
    match reduce(&Plain::new(), contract, state, interval, &mut log) {
        Ok(_) => Ok(warns(log.warnings.as_slice(), kind)),
        Err(SemFault::Leaves128) => Ok(is_leaving(kind)),
        Err(SemFault::Memory) => Err(AllocError),
        Err(_) => Ok(false),
    }
}

// Whether an alarm comes at the action of a case.
#[tactic(auto, using(crate::proofs::ComingLemmas::action_ahead))]
fn action_tells(
    alloc: Global,
    contract: &Contract,
    state: &mut State,
    interval: Interval,
    inputs: &[Input],
    index: usize,
    kind: AlarmKind,
) -> Result<bool, Memory>
    ensures { IfOk result (λ yes. yes ≡ true →
        ComesAhead kind (PathStep.Action index ∷ []) interval state.old (contract_tree contract.now) inputs.now) }
{
    match inputs {
        [] => Ok(false),
        [input, ..] => tells_at_action(alloc, contract, state, interval, input, index, kind),
    }
}

// Takes a step: what the contract goes on with, and the inputs that are then left; none where the transaction doesn't go
// that way.
#[tactic(auto, using(crate::proofs::ComingLemmas::goes_with))]
fn pass<'a>(
    alloc: Global,
    contract: &'a Contract,
    state: &mut State,
    interval: Interval,
    inputs: &'a [Input],
    step: PathStep,
) -> Result<Option<(&'a Contract, &'a [Input])>, Memory>
    ensures { IfOk result (λ next. IfSome next (λ n.
        ComesBehind step interval state.old (contract_tree contract.now) inputs.now state.new (contract_tree n.0.now) n.1.now)) }
{
    match step {
        PathStep::Case(index) => pass_case(alloc, contract, state, interval, inputs, index),
        _ => match reduce_by(alloc, contract, state, interval, step)? {
            Some(then) => Ok(Some((then, inputs))),
            None => Ok(None),
        },
    }
}

// .. into a case, which takes the first input.
#[tactic(auto, using(crate::proofs::ComingLemmas::taken_with))]
fn pass_case<'a>(
    alloc: Global,
    contract: &'a Contract,
    state: &mut State,
    interval: Interval,
    inputs: &'a [Input],
    index: usize,
) -> Result<Option<(&'a Contract, &'a [Input])>, Memory>
    ensures { IfOk result (λ next. IfSome next (λ n.
        ComesBehind (PathStep.Case index) interval state.old (contract_tree contract.now) inputs.now
        state.new (contract_tree n.0.now) n.1.now)) }
{
    match inputs {
        [] => Ok(None),
        [input, left @ ..] => {
            match takes(alloc, contract, state, interval, input, index)? {
                Some(then) => Ok(Some((then, left))),
                None => Ok(None),
            }
        }
    }
}

// .. by a reduction.
#[tactic(auto, using(crate::proofs::ComingLemmas::passes))]
fn reduce_by<'c>(
    alloc: Global,
    contract: &'c Contract,
    state: &mut State,
    interval: Interval,
    step: PathStep,
) -> Result<Option<&'c Contract>, Memory>
    ensures { IfOk result (λ next. IfSome next (λ d.
        GoesBy step interval state.old (contract_tree contract.now) state.new (contract_tree d.now))) }
{
    let leads = leads_by(contract, state, interval, step);
    if !leads {
        return Ok(None);
    }
    let mut log = Log::new(alloc);
    match reduce(&Plain::new(), contract, state, interval, &mut log) {
        Ok(Some(then)) => Ok(Some(then)),
        Ok(None) => Ok(None),
        Err(SemFault::Memory) => Err(AllocError),
        Err(_) => Ok(None),
    }
}

// Whether a reduction, if there is one, leads by this step.
fn leads_by(contract: &Contract, state: &State, interval: Interval, step: PathStep) -> bool
    ensures { result ≡ true → step ≡ step_from interval state.now (contract_tree contract.now) }
{
    match next_step(contract, state, interval) {
        Some(next) => next == step,
        None => false,
    }
}

// The step of the next reduction, if there is one.
fn next_step(contract: &Contract, state: &State, interval: Interval) -> Option<PathStep>
    ensures { IfSome result (λ step. step ≡ step_from interval state.now (contract_tree contract.now)) }
{
    match contract {
        Contract::Close => None,
        Contract::If(observation, _, _) => branch_of(observation, state, interval),
        Contract::When(_, _, _) => Some(PathStep::TimeoutContinuation),
        _ => Some(PathStep::Then),
    }
}

// The branch of an If.
fn branch_of(observation: &Observation, state: &State, interval: Interval) -> Option<PathStep>
    ensures { IfSome result (λ step. step ≡ branch (holds interval state.now (observation_tree observation.now))) }
{
    match holds(observation, state, interval) {
        Ok(truth) => {
            if truth {
                Some(PathStep::Then)
            } else {
                Some(PathStep::Else)
            }
        }
        Err(_) => None,
    }
}
