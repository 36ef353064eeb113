//! The steps of a transaction, and where in the contract each leads.
ghost use Rattle.std.specs.Prelude.{◌≡◌, ◌++◌, OnOk, IfOk, MatchOption, option_map, option_to_list};
ghost use Rattle.contract.specs.Collections.Answers.{AsideBy};
ghost use Rattle.contract.specs.Tree.{contract_tree};
ghost use Rattle.semantics.specs.Walk.{standing};
ghost use Rattle.semantics.specs.Computed.{settled, applied, one_input, all_inputs, computed};
ghost use Rattle.semantics.specs.Reduced.{step, reply, state_after, turn_of, is_quiet};
ghost use Rattle.analysis_spec.specs.Marks.{step_of};
ghost use Rattle.trace.specs.SteppingSupport.{Goes};

use crate::stepping::{Stepped, Stepping};
use analysis_spec::PathStep;
use contract::{Contract, Input, Interval, Items, Memory, SemFault, State};
use semantics::{Log, apply, fix, reduce};

/// One transaction (Marlowe specification version 3, "Compute transaction"): what it leaves of the contract, and the steps
/// that lead there behind the path.
pub(crate) fn compute<'c>(
    inputs: &[Input],
    contract: &'c Contract,
    state: &mut State,
    interval: Interval,
    log: &mut Log,
    path: &mut Items<PathStep>,
) -> Result<&'c Contract, SemFault>
    ensures { Goes (λ c. contract_tree c.now) path.old path.new state.new
        (computed interval state.old (contract_tree contract.now) inputs.now) result }
{
    let fixed = fix(interval, state)?;
    if inputs.is_empty() && is_quiet(contract, state, fixed) {
        return Err(SemFault::Useless);
    }
    let at = settle(contract, state, fixed, log, path)?;
    take_inputs(inputs, at, state, fixed, log, path)
}

/// Whether nothing is left to reduce.
pub fn is_quiet(contract: &Contract, state: &State, interval: Interval) -> bool
    ensures { result ≡ is_quiet interval state.now (contract_tree contract.now) }
{
    match contract {
        Contract::Close => state.accounts().is_empty(),
        Contract::When(_, timeout, _) => interval.to < *timeout,
        _ => false,
    }
}

// Reduces until all is quiet.
fn settle<'c>(
    contract: &'c Contract,
    state: &mut State,
    interval: Interval,
    log: &mut Log,
    path: &mut Items<PathStep>,
) -> Result<&'c Contract, SemFault>
    ensures { Goes (λ c. contract_tree c.now) path.old path.new state.new
        (settled interval state.old (contract_tree contract.now)) result }
{
    let mut at = contract;
    while let Some(next) = reduce_once(at, state, interval, log, path)? {
        at = next;
    }
    Ok(at)
}

// One reduction: the part that is gone on with, whose step comes behind the path; none where all is quiet.
fn reduce_once<'c>(
    contract: &'c Contract,
    state: &mut State,
    interval: Interval,
    log: &mut Log,
    path: &mut Items<PathStep>,
) -> Result<Option<&'c Contract>, SemFault>
    ensures reply { AsideBy SemFault.Memory (option_map (λ c. contract_tree c.now)) result
        (reply (step interval state.old (contract_tree contract.now))) }
    ensures state { OnOk result (state.new ≡ state_after state.old (step interval state.old (contract_tree contract.now))) }
    ensures path { IfOk result (λ next. MatchOption next (path.new ≡ path.old)
        (λ _. path.new ≡ path.old ++ step_of (turn_of (step interval state.old (contract_tree contract.now))))) }
{
    let here = Stepped {
        contract,
        step: None,
    };
    match reduce(&Stepping::new(), here, state, interval, log)? {
        Some(next) => {
            push_step(path, next.step)?;
            Ok(Some(next.contract))
        }
        None => Ok(None),
    }
}

/// Puts a step behind a path, if there is one.
pub fn push_step(path: &mut Items<PathStep>, step: Option<PathStep>) -> Result<(), Memory>
    ensures { OnOk result (path.new ≡ path.old ++ option_to_list step) }
{
    if let Some(step) = step {
        path.push(step)?;
    }
    Ok(())
}

// Each input in turn.
fn take_inputs<'c>(
    inputs: &[Input],
    contract: &'c Contract,
    state: &mut State,
    interval: Interval,
    log: &mut Log,
    path: &mut Items<PathStep>,
) -> Result<&'c Contract, SemFault>
    ensures { Goes (λ c. contract_tree c.now) path.old path.new state.new
        (all_inputs interval inputs.now (standing state.old (contract_tree contract.now))) result }
{
    let mut at = contract;
    for input in inputs {
        at = take_input(input, at, state, interval, log, path)?;
    }
    Ok(at)
}

// An input applies, and the contract settles again.
fn take_input<'c>(
    input: &Input,
    contract: &'c Contract,
    state: &mut State,
    interval: Interval,
    log: &mut Log,
    path: &mut Items<PathStep>,
) -> Result<&'c Contract, SemFault>
    ensures { Goes (λ c. contract_tree c.now) path.old path.new state.new
        (one_input interval input.now (standing state.old (contract_tree contract.now))) result }
{
    let then = apply_once(input, contract, state, interval, log, path)?;
    settle(then, state, interval, log, path)
}

// An input applies: what follows the case, whose step comes behind the path.
fn apply_once<'c>(
    input: &Input,
    contract: &'c Contract,
    state: &mut State,
    interval: Interval,
    log: &mut Log,
    path: &mut Items<PathStep>,
) -> Result<&'c Contract, SemFault>
    ensures { Goes (λ c. contract_tree c.now) path.old path.new state.new
        (applied interval input.now (standing state.old (contract_tree contract.now))) result }
{
    let here = Stepped {
        contract,
        step: None,
    };
    let then = apply(&Stepping::new(), input, here, state, interval, log)?;
    push_step(path, then.step)?;
    Ok(then.contract)
}
