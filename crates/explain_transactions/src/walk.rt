//! A second look at a transaction.
ghost use Rattle.std.specs.Prelude.{◌≡◌, ◌≤ℤ◌, [], IfOk, IsOk, MatchOption};
ghost use Rattle.contract.specs.Tree.{contract_tree};
ghost use Rattle.semantics.specs.Walk.{answer_of};
ghost use Rattle.semantics.specs.Transaction.{trimmed, begun};
ghost use Rattle.semantics.specs.Computed.{computed};
ghost use Rattle.explain_transactions.specs.Explained.{Explains};
ghost use Rattle.explain_transactions.specs.Support.{explanation, Tells};

use crate::explanation::Explanation;
use crate::inputs::take_and_settle;
use crate::reductions::settle;
use crate::stop::Stop;
use contract::{Contract, Input, Interval, Items, Memory, State, TryClone};
use semantics::Log;
use std::alloc::Global;
use trace::{Left, is_quiet};

/// Why a transaction on a contract and a state is refused, where it is: what the first fault is, and where (Marlowe specification
/// version 3, "Compute transaction"). None where it is accepted. Each value is evaluated twice at most, and no input is tried again once it
/// is taken, so it takes about twice the time of the transaction itself.
pub fn explain<'a>(
    alloc: Global,
    contract: &'a Contract,
    state: &State,
    interval: Interval,
    inputs: &'a [Input],
) -> Result<Option<Explanation<'a>>, Memory>
    ensures { IfOk result (λ found. MatchOption found
        (IsOk (answer_of (computed interval state.now (contract_tree contract.now) inputs.now)))
        (Explains interval state.now (contract_tree contract.now) inputs.now)) }
{
    let least = state.min_time();
    if interval.to < interval.from {
        return Ok(Some(Explanation::InvalidInterval));
    }
    if interval.to < least {
        return Ok(Some(Explanation::IntervalInPast(least)));
    }
    let fixed = fixed(interval, state);
    let begun = begun(state, interval)?;
    let left = Left {
        state: begun,
        contract,
        path: Items::new(alloc),
    };
    if inputs.is_empty() && is_quiet(contract, &left.state, fixed) {
        return Ok(Some(Explanation::Useless(left)));
    }
    walk(alloc, left, fixed, inputs)
}

// The interval with its start moved up to the minimum time.
fn fixed(interval: Interval, state: &State) -> Interval
    ensures { result ≡ trimmed interval state.now }
{
    Interval {
        from: interval.from.max(state.min_time()),
        to: interval.to,
    }
}

// The state with that start as its minimum time.
fn begun(state: &State, interval: Interval) -> Result<State, Memory>
    ensures { IfOk result (λ it. it ≡ begun interval state.now) }
{
    let mut begun = state.try_clone()?;
    begun.set_min_time(interval.from.max(state.min_time()));
    Ok(begun)
}

// What stops a transaction, once its interval is fixed; none where all inputs are taken.
fn walk<'a>(
    alloc: Global,
    mut left: Left<'a>,
    interval: Interval,
    inputs: &'a [Input],
) -> Result<Option<Explanation<'a>>, Memory>
    requires { left.path ≡ [] }
    ensures { IfOk result (Tells interval left.entry.state (contract_tree left.entry.contract.now) inputs.now) }
{
    let mut log = Log::new(alloc);
    if let Some(stop) = settle(&mut left, interval, &mut log)? {
        return Ok(Some(told(left, 0, stop)));
    }
    for index in 0..inputs.len() {
        if let Some(stop) = take_and_settle(&mut left, &inputs[index], interval, &mut log)? {
            return Ok(Some(told(left, index, stop)));
        }
    }
    Ok(None)
}

// What is told where so many inputs came before.
fn told<'a>(left: Left<'a>, index: usize, stop: Stop<'a>) -> Explanation<'a>
    ensures { result ≡ explanation left.entry index stop.entry }
{
    match stop {
        Stop::Ambiguous(timeout) => Explanation::Ambiguous(left.path, timeout),
        Stop::Value => Explanation::ValueLeaves(left.path),
        Stop::Sum(owner, token) => Explanation::SumLeaves(left.path, owner, token),
        Stop::Unmatched => Explanation::NoMatch(index, left),
    }
}
