//! Inputs, each where the contract waits.
ghost use Rattle.std.specs.Prelude.{◌≡◌, ◌<◌, Some, length, IfOk};
ghost use Rattle.contract.specs.Tree.{contract_tree};
ghost use Rattle.semantics.specs.Evaluation.Path.{waits_for};
ghost use Rattle.semantics.specs.Reduction.{Quiet};
ghost use Rattle.next_inputs.specs.Taking.{taken_case};
ghost use Rattle.explain_transactions.specs.Support.{IsDeposit, TakesOrStops, TakesAndSettles};

use crate::cases::find_case;
use crate::finding::Found;
use crate::reductions::settle;
use crate::stop::Stop;
use analysis_spec::PathStep;
use contract::{Input, Interval, Memory, SemFault};
use semantics::evaluation::Parts;
use semantics::{Log, Plain, take};
use std::alloc::AllocError;
use trace::Left;

/// Takes an input where the contract waits, and reduces again, up to what stops that.
pub(crate) fn take_and_settle<'a>(
    left: &mut Left<'a>,
    input: &'a Input,
    interval: Interval,
    log: &mut Log,
) -> Result<Option<Stop<'a>>, Memory>
    requires { Quiet interval left.old.state (contract_tree left.old.contract.now) }
    ensures { IfOk result (TakesAndSettles interval input.now left.old left.new) }
{
    match take_input(left, input, interval, log)? {
        Some(stop) => Ok(Some(stop)),
        None => settle(left, interval, log),
    }
}

// Takes an input, or tells what stops that.
fn take_input<'a>(
    left: &mut Left<'a>,
    input: &'a Input,
    interval: Interval,
    log: &mut Log,
) -> Result<Option<Stop<'a>>, Memory>
    requires { Quiet interval left.old.state (contract_tree left.old.contract.now) }
    ensures { IfOk result (TakesOrStops interval input.now left.old left.new) }
{
    let found = find_case(&Plain::new(), left.contract, input, &left.state, interval);
    match found {
        Found::Nowhere => Ok(Some(Stop::Unmatched)),
        Found::Leaves(index) => {
            left.path.push(PathStep::Action(index))?;
            Ok(Some(Stop::Value))
        }
        Found::At(index) => take_at(left, input, index, interval, log),
    }
}

// Takes an input by the case at an index, or tells the account whose sum leaves 128 bits.
fn take_at<'a>(
    left: &mut Left<'a>,
    input: &'a Input,
    index: usize,
    interval: Interval,
    log: &mut Log,
) -> Result<Option<Stop<'a>>, Memory>
    requires waits { Quiet interval left.old.state (contract_tree left.old.contract.now) }
    requires takes { taken_case interval left.old.state input.now (waits_for (contract_tree left.old.contract.now)) ≡ Some index }
    requires within { index < length (waits_for (contract_tree left.old.contract.now)) }
    ensures { IfOk result (TakesOrStops interval input.now left.old left.new) }
{
    match take(input, &mut left.state, log) {
        Ok(()) => {
            let plain = Plain::new();
            let case = plain.case(left.contract, index);
            left.path.push(PathStep::Case(index))?;
            left.contract = case.then;
            Ok(None)
        }
        Err(SemFault::Leaves128) => {
            left.path.push(PathStep::Action(index))?;
            deposit_stop(input)
        }
        Err(_) => Err(AllocError),
    }
}

// The account in which a deposit makes a sum.
fn deposit_stop<'a>(input: &'a Input) -> Result<Option<Stop<'a>>, Memory>
    ensures { IfOk result (λ stop. IsDeposit stop input.now) }
{
    match input {
        Input::Deposit(account, _, token, _) => Ok(Some(Stop::Sum(account, token))),
        _ => Err(AllocError),
    }
}
