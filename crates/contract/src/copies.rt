//! Copies of contracts. A copy is the same contract, or is refused for memory.
ghost use Rattle.std.specs.Prelude.{◌≡◌, IfOk};

use crate::together::{both, three_copies, two_copies};
use crate::tree::{Action, Case, Contract};
use crate::value::{Observation, Value};
use states::collections::{Boxed, Items, Memory, Text, TryClone};
use states::names::{Party, Payee, Token};
use std::alloc::Global;

impl TryClone for Value {
    fn try_clone(&self) -> Result<Value, Memory> {
        copy_value(self)
    }
}

impl TryClone for Observation {
    fn try_clone(&self) -> Result<Observation, Memory> {
        copy_observation(self)
    }
}

impl TryClone for Action {
    fn try_clone(&self) -> Result<Action, Memory> {
        match self {
            Action::Deposit(account, party, token, value) => {
                let (value, names) = value_with(value, account, party, token)?;
                let (account, party, token) = names;
                Ok(Action::Deposit(account, party, token, value))
            }
            Action::Choice(id, bounds) => {
                let (id, bounds) = two_copies(id, bounds)?;
                Ok(Action::Choice(id, bounds))
            }
            Action::Notify(observation) => Ok(Action::Notify(copy_observation(observation)?)),
        }
    }
}

impl TryClone for Case {
    fn try_clone(&self) -> Result<Case, Memory> {
        copy_case(self)
    }
}

impl TryClone for Contract {
    fn try_clone(&self) -> Result<Contract, Memory> {
        copy_contract(self)
    }
}

#[cycle(copy_value)]
fn copy_boxed_value(value: &Boxed<Value>) -> Result<Boxed<Value>, Memory>
    ensures { IfOk result (λ copy. copy ≡ value.now) }
{
    Boxed::new(value.allocator(), copy_value(value.get())?)
}

#[cycle(copy_value)]
fn copy_boxed_observation(observation: &Boxed<Observation>) -> Result<Boxed<Observation>, Memory>
    ensures { IfOk result (λ copy. copy ≡ observation.now) }
{
    Boxed::new(
        observation.allocator(),
        copy_observation(observation.get())?,
    )
}

#[cycle(copy_value)]
fn copy_values(a: &Boxed<Value>, b: &Boxed<Value>) -> Result<(Boxed<Value>, Boxed<Value>), Memory>
    ensures { IfOk result (λ copies. copies ≡ (a.now, b.now)) }
{
    let a = copy_boxed_value(a)?;
    both(a, copy_boxed_value(b))
}

#[cycle(copy_value)]
fn copy_observations(
    a: &Boxed<Observation>,
    b: &Boxed<Observation>,
) -> Result<(Boxed<Observation>, Boxed<Observation>), Memory>
    ensures { IfOk result (λ copies. copies ≡ (a.now, b.now)) }
{
    let a = copy_boxed_observation(a)?;
    both(a, copy_boxed_observation(b))
}

#[cycle(copy_value)]
fn copy_value(value: &Value) -> Result<Value, Memory>
    ensures { IfOk result (λ copy. copy ≡ value.now) }
{
    match value {
        Value::AvailableMoney(party, token) => {
            let (party, token) = two_copies(party, token)?;
            Ok(Value::AvailableMoney(party, token))
        }
        Value::Constant(number) => Ok(Value::Constant(*number)),
        Value::NegValue(a) => Ok(Value::NegValue(copy_boxed_value(a)?)),
        Value::AddValue(a, b) => {
            let (a, b) = copy_values(a, b)?;
            Ok(Value::AddValue(a, b))
        }
        Value::SubValue(a, b) => {
            let (a, b) = copy_values(a, b)?;
            Ok(Value::SubValue(a, b))
        }
        Value::MulValue(a, b) => {
            let (a, b) = copy_values(a, b)?;
            Ok(Value::MulValue(a, b))
        }
        Value::DivValue(a, b) => {
            let (a, b) = copy_values(a, b)?;
            Ok(Value::DivValue(a, b))
        }
        Value::ChoiceValue(id) => Ok(Value::ChoiceValue(id.try_clone()?)),
        Value::TimeIntervalStart => Ok(Value::TimeIntervalStart),
        Value::TimeIntervalEnd => Ok(Value::TimeIntervalEnd),
        Value::UseValue(name) => Ok(Value::UseValue(name.try_clone()?)),
        Value::Cond(observation, a, b) => {
            let observation = copy_boxed_observation(observation)?;
            let (observation, values) = both(observation, copy_values(a, b))?;
            let (a, b) = values;
            Ok(Value::Cond(observation, a, b))
        }
    }
}

#[cycle(copy_value)]
fn copy_observation(observation: &Observation) -> Result<Observation, Memory>
    ensures { IfOk result (λ copy. copy ≡ observation.now) }
{
    match observation {
        Observation::AndObs(a, b) => {
            let (a, b) = copy_observations(a, b)?;
            Ok(Observation::AndObs(a, b))
        }
        Observation::OrObs(a, b) => {
            let (a, b) = copy_observations(a, b)?;
            Ok(Observation::OrObs(a, b))
        }
        Observation::NotObs(a) => Ok(Observation::NotObs(copy_boxed_observation(a)?)),
        Observation::ChoseSomething(id) => Ok(Observation::ChoseSomething(id.try_clone()?)),
        Observation::ValueGE(a, b) => {
            let (a, b) = copy_values(a, b)?;
            Ok(Observation::ValueGE(a, b))
        }
        Observation::ValueGT(a, b) => {
            let (a, b) = copy_values(a, b)?;
            Ok(Observation::ValueGT(a, b))
        }
        Observation::ValueLT(a, b) => {
            let (a, b) = copy_values(a, b)?;
            Ok(Observation::ValueLT(a, b))
        }
        Observation::ValueLE(a, b) => {
            let (a, b) = copy_values(a, b)?;
            Ok(Observation::ValueLE(a, b))
        }
        Observation::ValueEQ(a, b) => {
            let (a, b) = copy_values(a, b)?;
            Ok(Observation::ValueEQ(a, b))
        }
        Observation::TrueObs => Ok(Observation::TrueObs),
        Observation::FalseObs => Ok(Observation::FalseObs),
    }
}

fn value_with<A: TryClone + Drop, B: TryClone + Drop, C: TryClone>(
    value: &Value,
    a: &A,
    b: &B,
    c: &C,
) -> Result<(Value, (A, B, C)), Memory>
    ensures { IfOk result (λ copies. (copies.0 ≡ value.now) × (copies.1 ≡ (a.now, b.now, c.now))) }
{
    let value = copy_value(value)?;
    both(value, three_copies(a, b, c))
}

fn pay_with(
    from: &Party,
    to: &Payee,
    token: &Token,
    value: &Value,
    then: Boxed<Contract>,
) -> Result<Contract, Memory>
    ensures { IfOk result (λ copy. copy ≡ Contract.Pay from.now to.now token.now value.now then) }
{
    let (then, parts) = both(then, value_with(value, from, to, token))?;
    let (value, names) = parts;
    let (from, to, token) = names;
    Ok(Contract::Pay(from, to, token, value, then))
}

fn if_with(
    observation: &Observation,
    then: Boxed<Contract>,
    otherwise: Boxed<Contract>,
) -> Result<Contract, Memory>
    ensures { IfOk result (λ copy. copy ≡ Contract.If observation.now then otherwise) }
{
    let (branches, observation) = both((then, otherwise), copy_observation(observation))?;
    let (then, otherwise) = branches;
    Ok(Contract::If(observation, then, otherwise))
}

fn let_with(name: &Text, value: &Value, then: Boxed<Contract>) -> Result<Contract, Memory>
    ensures { IfOk result (λ copy. copy ≡ Contract.Let name.now value.now then) }
{
    let (then, value) = both(then, copy_value(value))?;
    let (parts, name) = both((value, then), name.try_clone())?;
    let (value, then) = parts;
    Ok(Contract::Let(name, value, then))
}

fn assert_with(observation: &Observation, then: Boxed<Contract>) -> Result<Contract, Memory>
    ensures { IfOk result (λ copy. copy ≡ Contract.Assert observation.now then) }
{
    let (then, observation) = both(then, copy_observation(observation))?;
    Ok(Contract::Assert(observation, then))
}

#[cycle(copy_contract)]
fn copy_boxed(contract: &Boxed<Contract>) -> Result<Boxed<Contract>, Memory>
    ensures { IfOk result (λ copy. copy ≡ contract.now) }
{
    Boxed::new(contract.allocator(), copy_contract(contract.get())?)
}

#[cycle(copy_contract)]
fn copy_case(case: &Case) -> Result<Case, Memory>
    ensures { IfOk result (λ copy. copy ≡ case.now) }
{
    let action = case.action.try_clone()?;
    let (action, then) = both(action, copy_contract(&case.then))?;
    Ok(Case { action, then })
}

#[cycle(copy_contract)]
fn copy_cases(alloc: Global, cases: &Items<Case>) -> Result<Items<Case>, Memory>
    ensures { IfOk result (λ copy. copy ≡ cases.now) }
{
    let mut copies = Items::new(alloc);
    for case in cases.as_slice() {
        copies.push(copy_case(case)?)?;
    }
    Ok(copies)
}

#[cycle(copy_contract)]
fn copy_contract(contract: &Contract) -> Result<Contract, Memory>
    ensures { IfOk result (λ copy. copy ≡ contract.now) }
{
    match contract {
        Contract::Close => Ok(Contract::Close),
        Contract::Pay(from, to, token, value, then) => {
            pay_with(from, to, token, value, copy_boxed(then)?)
        }
        Contract::If(observation, then, otherwise) => {
            let then = copy_boxed(then)?;
            let (then, otherwise) = both(then, copy_boxed(otherwise))?;
            if_with(observation, then, otherwise)
        }
        Contract::When(cases, timeout, then) => {
            let cases = copy_cases(then.allocator(), cases)?;
            let (cases, then) = both(cases, copy_boxed(then))?;
            Ok(Contract::When(cases, *timeout, then))
        }
        Contract::Let(name, value, then) => let_with(name, value, copy_boxed(then)?),
        Contract::Assert(observation, then) => assert_with(observation, copy_boxed(then)?),
    }
}
