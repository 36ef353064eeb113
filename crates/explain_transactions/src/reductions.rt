//! Reductions, up to where all is quiet or one can't be made.
ghost use Rattle.std.specs.Prelude.{◌≡◌, not, true, IfOk, MatchOption};
ghost use Rattle.contract.specs.Tree.{contract_tree};
ghost use Rattle.semantics.specs.Evaluation.Numbers.{all_fit};
ghost use Rattle.explain_transactions.specs.Explained.{own_numbers};
ghost use Rattle.explain_transactions.specs.Support.{timeout_inside, IsPayment, Stops, HasMoved, is_on, Descends, Settles};

use crate::stop::{Moved, Stop};
use contract::{Contract, Interval, Memory, Payee, SemFault, State};
use semantics::evaluation::{Form, Parts};
use semantics::{Log, Plain, reduce};
use std::alloc::AllocError;
use trace::{Left, Stepped, Stepping, push_step};

/// Reduces until all is quiet, or up to where a reduction can't be made.
pub(crate) fn settle<'a>(
    left: &mut Left<'a>,
    interval: Interval,
    log: &mut Log,
) -> Result<Option<Stop<'a>>, Memory>
    ensures { IfOk result (Settles interval left.old left.new) }
{
    let mut moved = reduce_once(left, interval, log)?;
    while is_on(moved) {
        moved = reduce_once(left, interval, log)?;
    }
    match moved {
        Moved::Stops(stop) => Ok(Some(stop)),
        Moved::Rests => Ok(None),
        Moved::On => Err(AllocError),
    }
}

fn is_on(moved: Moved<'_>) -> bool
    ensures { result ≡ is_on moved.entry }
{
    matches!(moved, Moved::On)
}

// One reduction, or why it can't be made.
fn reduce_once<'a>(
    left: &mut Left<'a>,
    interval: Interval,
    log: &mut Log,
) -> Result<Moved<'a>, Memory>
    ensures moved { IfOk result (HasMoved interval left.old left.new) }
    ensures less { IfOk result (Descends left.old left.new) }
{
    match stop_before(left.contract, &left.state, interval) {
        Some(stop) => Ok(Moved::Stops(stop)),
        None => reduce_on(left, interval, log),
    }
}

// Why a contract can't be reduced: a timeout inside the interval, or a number of its own that leaves 128 bits.
fn stop_before<'a>(contract: &'a Contract, state: &State, interval: Interval) -> Option<Stop<'a>>
    ensures { MatchOption result (all_fit (own_numbers interval state.now (contract_tree contract.now)) ≡ true)
        (Stops interval state.now (contract_tree contract.now)) }
{
    if let Some(timeout) = timeout_inside(&Plain::new(), contract, interval) {
        return Some(Stop::Ambiguous(timeout));
    }
    if own_leaves(&Plain::new(), contract, state, interval) {
        return Some(Stop::Value);
    }
    None
}

// One reduction, where no number of the value or the observation leaves 128 bits.
fn reduce_on<'a>(
    left: &mut Left<'a>,
    interval: Interval,
    log: &mut Log,
) -> Result<Moved<'a>, Memory>
    requires { all_fit (own_numbers interval left.old.state (contract_tree left.old.contract.now)) ≡ true }
    ensures moved { IfOk result (HasMoved interval left.old left.new) }
    ensures less { IfOk result (Descends left.old left.new) }
{
    let here = Stepped {
        contract: left.contract,
        step: None,
    };
    match reduce(&Stepping::new(), here, &mut left.state, interval, log) {
        Ok(Some(next)) => {
            push_step(&mut left.path, next.step)?;
            left.contract = next.contract;
            Ok(Moved::On)
        }
        Ok(None) => Ok(Moved::Rests),
        Err(SemFault::Leaves128) => payment_stop(left.contract),
        Err(_) => Err(AllocError),
    }
}

// The timeout of a When that lies inside the interval, if one does.
fn timeout_inside<S: Parts>(parts: &S, place: S::Place, interval: Interval) -> Option<i64>
    requires { S.contains parts.now place }
    ensures { result ≡ timeout_inside interval (S.tree parts.now place) }
{
    match parts.form(place) {
        Form::When(timeout, _) => {
            if interval.from < timeout && timeout <= interval.to {
                Some(timeout)
            } else {
                None
            }
        }
        _ => None,
    }
}

// Whether a number of the value or the observation that is reduced leaves 128 bits.
fn own_leaves<S: Parts>(parts: &S, place: S::Place, state: &State, interval: Interval) -> bool
    requires { S.contains parts.now place }
    ensures { result ≡ not (all_fit (own_numbers interval state.now (S.tree parts.now place))) }
{
    match parts.form(place) {
        Form::Pay(_, _, _, amount, _) => parts.value(amount, state, interval).is_err(),
        Form::Let(_, bound, _) => parts.value(bound, state, interval).is_err(),
        Form::If(observation, _, _) => parts.holds(observation, state, interval).is_err(),
        Form::Assert(observation, _) => parts.holds(observation, state, interval).is_err(),
        _ => false,
    }
}

// The account in which a payment makes a sum.
fn payment_stop<'a>(contract: &'a Contract) -> Result<Moved<'a>, Memory>
    ensures { IfOk result (λ moved. IsPayment moved (contract_tree contract.now)) }
{
    match contract {
        Contract::Pay(_, Payee::Account(owner), token, _, _) => {
            Ok(Moved::Stops(Stop::Sum(owner, token)))
        }
        _ => Err(AllocError),
    }
}
