//! Contracts from their numbers.
ghost use Rattle.std.specs.Prelude.{◌≡◌, IfOk, Ok, map};
ghost use Rattle.contract.specs.Tree as trees;
ghost use Rattle.table.specs.Flat as flat;
ghost use Rattle.table.specs.Flat.{Stands, AllStand, a_value, an_observation, a_case, a_cont};
ghost use Rattle.table.specs.DecompileSupport.{AreValuesAt, AreObservationsAt};

use crate::table::Table;
use contract::{
    Action, Bound, Boxed, Case, ChoiceId, Contract, Items, Memory, Observation, Party, Payee, Text,
    Token, TryClone, Value,
};
use nodes::{CaseNode, Cont, ContNode, ObservationNode, ValueNode};
use std::alloc::Global;

impl Table {
    /// The contract that a continuation stands for, or is refused for memory. It is as large as the unfolded
    /// tree, which may be far larger than the table where parts are named more than once.
    pub fn decompile(&self, alloc: Global, cont: Cont) -> Result<Contract, Memory>
        requires { Stands self.now (a_cont cont.0) }
        ensures { IfOk result (λ contract. trees.contract_tree contract ≡ flat.cont_tree self.now cont.0) }
    {
        contract_at(self, alloc, cont)
    }
}

// The contract of a continuation: its parts first.
#[cycle(contract_at)]
#[tactic(auto, using(crate::proofs::Forms::contract_forms))]
fn contract_at(table: &Table, alloc: Global, cont: Cont) -> Result<Contract, Memory>
    requires { Stands table.now (a_cont cont.0) }
    ensures { IfOk result (λ contract. trees.contract_tree contract ≡ flat.cont_tree table.now cont.0) }
{
    match &table.cont_node(cont).node {
        ContNode::Close => Ok(Contract::Close),
        ContNode::Pay(from, to, token, amount, then) => {
            let then = boxed_contract_at(table, alloc, *then)?;
            let (then, amount) = both(then, value_at(table, alloc, *amount))?;
            pay(from, to, token, amount, then)
        }
        ContNode::If(observation, then, otherwise) => {
            let then = boxed_contract_at(table, alloc, *then)?;
            let branches = both(then, boxed_contract_at(table, alloc, *otherwise))?;
            let (branches, observation) = both(
                branches,
                observation_at(table, alloc, *observation),
            )?;
            let (then, otherwise) = branches;
            Ok(Contract::If(observation, then, otherwise))
        }
        ContNode::When(cases, timeout, then) => {
            let cases = cases_at(table, alloc, cases.as_slice())?;
            let then = boxed_contract_at(table, alloc, *then)?;
            Ok(when(cases, *timeout, then))
        }
        ContNode::Let(name, bound, then) => {
            let then = boxed_contract_at(table, alloc, *then)?;
            let (then, bound) = both(then, value_at(table, alloc, *bound))?;
            let_be(name, bound, then)
        }
        ContNode::Assert(observation, then) => {
            let then = boxed_contract_at(table, alloc, *then)?;
            let (then, observation) = both(then, observation_at(table, alloc, *observation))?;
            Ok(Contract::Assert(observation, then))
        }
    }
}

#[cycle(contract_at)]
fn boxed_contract_at(table: &Table, alloc: Global, cont: Cont) -> Result<Boxed<Contract>, Memory>
    requires { Stands table.now (a_cont cont.0) }
    ensures { IfOk result (λ contract. trees.contract_tree contract ≡ flat.cont_tree table.now cont.0) }
{
    Boxed::new(alloc, contract_at(table, alloc, cont)?)
}

#[cycle(contract_at)]
fn cases_at(table: &Table, alloc: Global, numbers: &[u32]) -> Result<Items<Case>, Memory>
    requires { AllStand table.now (map a_case numbers.now) }
    ensures { IfOk result (λ cases. map trees.case_tree cases ≡ map (flat.case_tree table.now) numbers.now) }
{
    let mut cases = Items::new(alloc);
    for number in numbers {
        cases.push(case_at(table, alloc, *number)?)?;
    }
    Ok(cases)
}

#[cycle(contract_at)]
#[tactic(auto, using(crate::proofs::Forms::contract_forms))]
fn case_at(table: &Table, alloc: Global, number: u32) -> Result<Case, Memory>
    requires { Stands table.now (a_case number) }
    ensures { IfOk result (λ case. trees.case_tree case ≡ flat.case_tree table.now number) }
{
    let node = &table.case_node(number).node;
    let then = contract_at(table, alloc, follows(node))?;
    let (then, action) = both(then, action_at(table, alloc, node))?;
    Ok(Case { action, then })
}

// What follows a case.
fn follows(node: &CaseNode) -> Cont
    ensures { result ≡ flat.follows node.now }
{
    match node {
        CaseNode::Deposit(_, _, _, _, then) => *then,
        CaseNode::Choice(_, _, then) => *then,
        CaseNode::Notify(_, then) => *then,
    }
}

// What a case waits for.
fn action_at(table: &Table, alloc: Global, node: &CaseNode) -> Result<Action, Memory>
    requires { AllStand table.now (flat.case_parts node.now) }
    ensures { IfOk result (λ action. trees.action_tree action ≡ (flat.case_of (flat.trees table.now) node.now).0) }
{
    match node {
        CaseNode::Deposit(account, party, token, amount, _) => {
            let amount = value_at(table, alloc, *amount)?;
            deposit(account, party, token, amount)
        }
        CaseNode::Choice(id, bounds, _) => choice(id, bounds),
        CaseNode::Notify(observation, _) => {
            let observation = observation_at(table, alloc, *observation)?;
            Ok(Action::Notify(observation))
        }
    }
}

fn deposit(account: &Party, party: &Party, token: &Token, amount: Value) -> Result<Action, Memory>
    ensures { IfOk result (λ action. action ≡ Action.Deposit account.now party.now token.now amount) }
{
    let (account, party, token, amount) = beside_three(account, party, token, amount)?;
    Ok(Action::Deposit(account, party, token, amount))
}

fn choice(id: &ChoiceId, bounds: &Items<Bound>) -> Result<Action, Memory>
    ensures { IfOk result (λ action. action ≡ Action.Choice id.now bounds.now) }
{
    let id = id.try_clone()?;
    let bounds = bounds.try_clone()?;
    Ok(Action::Choice(id, bounds))
}

fn pay(
    from: &Party,
    to: &Payee,
    token: &Token,
    amount: Value,
    then: Boxed<Contract>,
) -> Result<Contract, Memory>
    ensures { IfOk result (λ contract. contract ≡ Contract.Pay from.now to.now token.now amount then) }
{
    let (from, to, token, (amount, then)) = beside_three(from, to, token, (amount, then))?;
    Ok(Contract::Pay(from, to, token, amount, then))
}

#[tactic(auto, using(crate::proofs::Forms::contract_forms))]
fn when(cases: Items<Case>, timeout: i64, then: Boxed<Contract>) -> Contract
    ensures { trees.contract_tree result
        ≡ trees.when (trees.case_trees (map trees.case_tree cases)) timeout (trees.contract_tree then) }
{
    Contract::When(cases, timeout, then)
}

fn let_be(name: &Text, bound: Value, then: Boxed<Contract>) -> Result<Contract, Memory>
    ensures { IfOk result (λ contract. contract ≡ Contract.Let name.now bound then) }
{
    let (name, (bound, then)) = beside(name, (bound, then))?;
    Ok(Contract::Let(name, bound, then))
}

// What is handed in, and what was made beside it. It is generic in both, so that no proof walks through the drop of a tree where
// the second was refused.
fn both<A: Drop, B: Drop>(a: A, b: Result<B, Memory>) -> Result<(A, B), Memory>
    ensures { IfOk result (λ made. (made.0 ≡ a) × (b ≡ Ok made.1)) }
{
    let b = b?;
    Ok((a, b))
}

// A copy, beside what is handed in.
fn beside<A: TryClone + Drop, T: Drop>(a: &A, rest: T) -> Result<(A, T), Memory>
    ensures { IfOk result (λ made. (made.0 ≡ a.now) × (made.1 ≡ rest)) }
{
    let a = a.try_clone()?;
    Ok((a, rest))
}

// Three copies, beside what is handed in.
fn beside_three<A: TryClone + Drop, B: TryClone + Drop, C: TryClone + Drop, T: Drop>(
    a: &A,
    b: &B,
    c: &C,
    rest: T,
) -> Result<(A, B, C, T), Memory>
    ensures { IfOk result (λ made. (made.0 ≡ a.now) × (made.1 ≡ b.now) × (made.2 ≡ c.now) × (made.3 ≡ rest)) }
{
    let a = a.try_clone()?;
    let b = b.try_clone()?;
    let c = c.try_clone()?;
    Ok((a, b, c, rest))
}

#[cycle(value_at)]
#[tactic(auto, using(crate::proofs::Forms::value_forms))]
pub(super) fn value_at(table: &Table, alloc: Global, number: u32) -> Result<Value, Memory>
    requires { Stands table.now (a_value number) }
    ensures { IfOk result (λ value. trees.value_tree value ≡ flat.value_tree table.now number) }
{
    match &table.value_node(number).node {
        ValueNode::AvailableMoney(owner, token) => available_money(owner, token),
        ValueNode::Constant(constant) => Ok(Value::Constant(*constant)),
        ValueNode::NegValue(a) => Ok(Value::NegValue(boxed_value_at(table, alloc, *a)?)),
        ValueNode::AddValue(a, b) => {
            let (x, y) = two_values_at(table, alloc, *a, *b)?;
            Ok(Value::AddValue(x, y))
        }
        ValueNode::SubValue(a, b) => {
            let (x, y) = two_values_at(table, alloc, *a, *b)?;
            Ok(Value::SubValue(x, y))
        }
        ValueNode::MulValue(a, b) => {
            let (x, y) = two_values_at(table, alloc, *a, *b)?;
            Ok(Value::MulValue(x, y))
        }
        ValueNode::DivValue(a, b) => {
            let (x, y) = two_values_at(table, alloc, *a, *b)?;
            Ok(Value::DivValue(x, y))
        }
        ValueNode::ChoiceValue(id) => Ok(Value::ChoiceValue(id.try_clone()?)),
        ValueNode::TimeIntervalStart => Ok(Value::TimeIntervalStart),
        ValueNode::TimeIntervalEnd => Ok(Value::TimeIntervalEnd),
        ValueNode::UseValue(name) => Ok(Value::UseValue(name.try_clone()?)),
        ValueNode::Cond(observation, a, b) => {
            let observation = boxed_observation_at(table, alloc, *observation)?;
            let (observation, branches) = both(observation, two_values_at(table, alloc, *a, *b))?;
            let (x, y) = branches;
            Ok(Value::Cond(observation, x, y))
        }
    }
}

fn available_money(owner: &Party, token: &Token) -> Result<Value, Memory>
    ensures { IfOk result (λ value. value ≡ Value.AvailableMoney owner.now token.now) }
{
    let owner = owner.try_clone()?;
    let (token, owner) = beside(token, owner)?;
    Ok(Value::AvailableMoney(owner, token))
}

#[cycle(value_at)]
fn boxed_value_at(table: &Table, alloc: Global, number: u32) -> Result<Boxed<Value>, Memory>
    requires { Stands table.now (a_value number) }
    ensures { IfOk result (λ value. trees.value_tree value ≡ flat.value_tree table.now number) }
{
    Boxed::new(alloc, value_at(table, alloc, number)?)
}

#[cycle(value_at)]
fn two_values_at(
    table: &Table,
    alloc: Global,
    a: u32,
    b: u32,
) -> Result<(Boxed<Value>, Boxed<Value>), Memory>
    requires first { Stands table.now (a_value a) }
    requires second { Stands table.now (a_value b) }
    ensures { IfOk result (AreValuesAt table.now a b) }
{
    let x = boxed_value_at(table, alloc, a)?;
    both(x, boxed_value_at(table, alloc, b))
}

#[cycle(value_at)]
#[tactic(auto, using(crate::proofs::Forms::observation_forms))]
fn observation_at(table: &Table, alloc: Global, number: u32) -> Result<Observation, Memory>
    requires { Stands table.now (an_observation number) }
    ensures { IfOk result (λ observation. trees.observation_tree observation ≡ flat.observation_tree table.now number) }
{
    match &table.observation_node(number).node {
        ObservationNode::AndObs(a, b) => {
            let (x, y) = two_observations_at(table, alloc, *a, *b)?;
            Ok(Observation::AndObs(x, y))
        }
        ObservationNode::OrObs(a, b) => {
            let (x, y) = two_observations_at(table, alloc, *a, *b)?;
            Ok(Observation::OrObs(x, y))
        }
        ObservationNode::NotObs(a) => {
            Ok(Observation::NotObs(boxed_observation_at(table, alloc, *a)?))
        }
        ObservationNode::ChoseSomething(id) => Ok(Observation::ChoseSomething(id.try_clone()?)),
        ObservationNode::ValueGE(a, b) => {
            let (x, y) = two_values_at(table, alloc, *a, *b)?;
            Ok(Observation::ValueGE(x, y))
        }
        ObservationNode::ValueGT(a, b) => {
            let (x, y) = two_values_at(table, alloc, *a, *b)?;
            Ok(Observation::ValueGT(x, y))
        }
        ObservationNode::ValueLT(a, b) => {
            let (x, y) = two_values_at(table, alloc, *a, *b)?;
            Ok(Observation::ValueLT(x, y))
        }
        ObservationNode::ValueLE(a, b) => {
            let (x, y) = two_values_at(table, alloc, *a, *b)?;
            Ok(Observation::ValueLE(x, y))
        }
        ObservationNode::ValueEQ(a, b) => {
            let (x, y) = two_values_at(table, alloc, *a, *b)?;
            Ok(Observation::ValueEQ(x, y))
        }
        ObservationNode::TrueObs => Ok(Observation::TrueObs),
        ObservationNode::FalseObs => Ok(Observation::FalseObs),
    }
}

#[cycle(value_at)]
fn two_observations_at(
    table: &Table,
    alloc: Global,
    a: u32,
    b: u32,
) -> Result<(Boxed<Observation>, Boxed<Observation>), Memory>
    requires first { Stands table.now (an_observation a) }
    requires second { Stands table.now (an_observation b) }
    ensures { IfOk result (AreObservationsAt table.now a b) }
{
    let x = boxed_observation_at(table, alloc, a)?;
    both(x, boxed_observation_at(table, alloc, b))
}

#[cycle(value_at)]
fn boxed_observation_at(
    table: &Table,
    alloc: Global,
    number: u32,
) -> Result<Boxed<Observation>, Memory>
    requires { Stands table.now (an_observation number) }
    ensures { IfOk result (λ observation. trees.observation_tree observation ≡ flat.observation_tree table.now number) }
{
    Boxed::new(alloc, observation_at(table, alloc, number)?)
}
