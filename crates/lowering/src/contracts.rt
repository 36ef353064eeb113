//! The nodes of actions, cases and contracts.
ghost use Rattle.std.specs.Prelude.{◌≡◌, ◌+◌, ◌<◌, ◌≤◌, length, map, IfOk};
ghost use Rattle.contract.specs.Tree.{action_tree, case_tree, case_trees, contract_tree};
ghost use Rattle.table.specs.Heights.{case_over, contract_height};
ghost use Rattle.table.specs.Flat.{trees, IsFlat};
ghost use Rattle.table_builder.specs.Putting.{put_case, others_in};
ghost use Rattle.lowering.specs.Sizes.{action_size, conts, conts_of, others, others_of};
ghost use Rattle.lowering.specs.Code.{case_node, code, code_action, code_contract, code_cases};
ghost use Rattle.lowering.specs.Building.{cases_height, others_of_case, code_of_case, ActionStands, HasRoom};

use crate::values::{add_observation, add_value};
use contract::{Action, Case, Contract, Items, Memory, Party, Payee, Text, Token, TryClone};
use std::alloc::Global;
use table::{CaseNode, Cont, ContNode, Table};
use table_builder::Builder;

// The value or observation of an action, if it has one.
#[tactic(auto, unfolding(crate::specs::Sizes::action_size, crate::specs::Code::code_action))]
fn add_action(builder: &mut Builder, action: &Action) -> Result<u32, Memory>
    requires flat { IsFlat builder.old }
    requires low { case_over (action_tree action.now) 0 ≤ 999 }
    requires room { HasRoom builder.old (action_size (action_tree action.now)) }
    ensures code { IfOk result (λ _. builder.new ≡ (code_action (action_tree action.now) builder.old).0) }
    ensures number { IfOk result (λ n. n ≡ (code_action (action_tree action.now) builder.old).1) }
{
    match action {
        Action::Deposit(_, _, _, value) => add_value(builder, value),
        Action::Choice(_, _) => Ok(0),
        Action::Notify(observation) => add_observation(builder, observation),
    }
}

fn deposit_node(
    account: &Party,
    party: &Party,
    token: &Token,
    number: u32,
    then: Cont,
) -> Result<CaseNode, Memory>
    ensures { IfOk result (λ node. node ≡ CaseNode.Deposit account.now party.now token.now number then) }
{
    Ok(CaseNode::Deposit(
        account.try_clone()?,
        party.try_clone()?,
        token.try_clone()?,
        number,
        then,
    ))
}

fn pay_node(
    from: &Party,
    to: &Payee,
    token: &Token,
    number: u32,
    then: Cont,
) -> Result<ContNode, Memory>
    ensures { IfOk result (λ node. node ≡ ContNode.Pay from.now to.now token.now number then) }
{
    Ok(ContNode::Pay(
        from.try_clone()?,
        to.try_clone()?,
        token.try_clone()?,
        number,
        then,
    ))
}

fn let_node(name: &Text, number: u32, then: Cont) -> Result<ContNode, Memory>
    ensures { IfOk result (λ node. node ≡ ContNode.Let name.now number then) }
{
    Ok(ContNode::Let(name.try_clone()?, number, then))
}

// The node of a case, once what it waits for and its continuation stand.
fn put_case_of(
    builder: &mut Builder,
    action: &Action,
    number: u32,
    then: Cont,
) -> Result<u32, Memory>
    requires waits { ActionStands builder.old (action_tree action.now) number }
    requires stands { then.0 < length builder.old.conts }
    requires low { case_over (action_tree action.now) (contract_height ((trees builder.old).cont then.0)) ≤ 999 }
    requires room { others_in builder.old < 1000000 }
    ensures code { IfOk result (λ _. builder.new ≡ (put_case builder.old (case_node (action_tree action.now) number then)).0) }
    ensures number { IfOk result (λ k. k ≡ (put_case builder.old (case_node (action_tree action.now) number then)).1) }
{
    match action {
        Action::Deposit(account, party, token, _) => {
            let node = deposit_node(account, party, token, number, then)?;
            builder.put_case(node)
        }
        Action::Choice(id, bounds) => {
            let node = CaseNode::Choice(id.try_clone()?, bounds.try_clone()?, then);
            builder.put_case(node)
        }
        Action::Notify(_) => builder.put_case(CaseNode::Notify(number, then)),
    }
}

/// The table of a contract, which has its nodes, its parts first and from the left, and the contract's number. The
/// contract is at most 999 high, and has at most 65,535 continuations and at most 1,000,000 values, observations and
/// cases. Answers `Memory` only where a growth is refused.
#[tactic(auto, unfolding(crate::specs::Code::code))]
pub fn lower(alloc: Global, contract: &Contract) -> Result<(Table, Cont), Memory>
    requires low { contract_height (contract_tree contract.now) ≤ 999 }
    requires room { others (contract_tree contract.now) ≤ 1000000 }
    requires conts { conts (contract_tree contract.now) ≤ 65535 }
    ensures { IfOk result (λ made. made ≡ code (contract_tree contract.now)) }
{
    let mut builder = Builder::new(alloc);
    let root = add_contract(&mut builder, alloc, contract)?;
    Ok((builder.into_table(), root))
}

// Puts the nodes of a contract into a table, and answers the contract's number. On a refusal some of them stand there.
#[cycle(add_contract)]
#[tactic(auto, using(crate::proofs::Trees::contract_forms))]
fn add_contract(builder: &mut Builder, alloc: Global, contract: &Contract) -> Result<Cont, Memory>
    requires flat { IsFlat builder.old }
    requires low { contract_height (contract_tree contract.now) ≤ 999 }
    requires room { HasRoom builder.old (others (contract_tree contract.now)) }
    requires conts { length builder.old.conts + conts (contract_tree contract.now) ≤ 65535 }
    ensures code { IfOk result (λ _. builder.new ≡ (code_contract (contract_tree contract.now) builder.old).0) }
    ensures number { IfOk result (λ k. k ≡ (code_contract (contract_tree contract.now) builder.old).1) }
{
    match contract {
        Contract::Close => builder.put_cont(ContNode::Close),
        Contract::Pay(from, to, token, value, then) => {
            let number = add_value(builder, value)?;
            let then = add_contract(builder, alloc, then.get())?;
            builder.put_cont(pay_node(from, to, token, number, then)?)
        }
        Contract::If(observation, then, otherwise) => {
            let number = add_observation(builder, observation)?;
            let then = add_contract(builder, alloc, then.get())?;
            let otherwise = add_contract(builder, alloc, otherwise.get())?;
            builder.put_cont(ContNode::If(number, then, otherwise))
        }
        Contract::When(cases, timeout, then) => {
            let numbers = add_cases(builder, alloc, cases)?;
            let then = add_contract(builder, alloc, then.get())?;
            builder.put_cont(ContNode::When(numbers, *timeout, then))
        }
        Contract::Let(name, value, then) => {
            let number = add_value(builder, value)?;
            let then = add_contract(builder, alloc, then.get())?;
            builder.put_cont(let_node(name, number, then)?)
        }
        Contract::Assert(observation, then) => {
            let number = add_observation(builder, observation)?;
            let then = add_contract(builder, alloc, then.get())?;
            builder.put_cont(ContNode::Assert(number, then))
        }
    }
}

#[cycle(add_contract)]
#[tactic(auto, using(crate::proofs::Trees::case_forms))]
fn add_case(builder: &mut Builder, alloc: Global, case: &Case) -> Result<u32, Memory>
    requires flat { IsFlat builder.old }
    requires low { case_over (action_tree case.now.action) (contract_height (contract_tree case.now.then)) ≤ 999 }
    requires room { HasRoom builder.old (others_of_case case.now) }
    requires conts { length builder.old.conts + conts (contract_tree case.now.then) ≤ 65535 }
    ensures code { IfOk result (λ _. builder.new ≡ (code_of_case case.now builder.old).0) }
    ensures number { IfOk result (λ k. k ≡ (code_of_case case.now builder.old).1) }
{
    let number = add_action(builder, &case.action)?;
    let then = add_contract(builder, alloc, &case.then)?;
    put_case_of(builder, &case.action, number, then)
}

#[cycle(add_contract)]
#[tactic(auto, using(crate::proofs::Trees::cases_forms))]
fn add_cases(
    builder: &mut Builder,
    alloc: Global,
    cases: &Items<Case>,
) -> Result<Items<u32>, Memory>
    requires flat { IsFlat builder.old }
    requires low { cases_height (case_trees (map case_tree cases.now)) ≤ 998 }
    requires room { HasRoom builder.old (others_of (case_trees (map case_tree cases.now))) }
    requires conts { length builder.old.conts + conts_of (case_trees (map case_tree cases.now)) ≤ 65535 }
    ensures code { IfOk result (λ _. builder.new ≡ (code_cases (case_trees (map case_tree cases.now)) builder.old).0) }
    ensures number { IfOk result (λ ns. ns ≡ (code_cases (case_trees (map case_tree cases.now)) builder.old).1) }
{
    let mut numbers = Items::new(alloc);
    for case in cases.as_slice() {
        numbers.push(add_case(builder, alloc, case)?)?;
    }
    Ok(numbers)
}
