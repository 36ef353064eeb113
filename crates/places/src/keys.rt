//! Keys of paths and of places.
ghost use Rattle.std.specs.Prelude.{◌≡◌, [], ◌∷◌, ◌++◌, map, IfOk, OnOk};
ghost use Rattle.contract.specs.Tree.{contract_tree, action_tree, case_tree, case_trees};
ghost use Rattle.places.specs.Places.{step_keys, form_key, action_key, case_key, last_key, path_keys, keys_of};

use crate::key::Key;
use analysis_spec::PathStep;
use analysis_walk::part_behind;
use contract::{Action, Case, Contract, Memory};
use std::alloc::Global;

/// The keys of a path's steps alone: of the empty path there is none.
pub fn path_keys(alloc: Global, path: &[PathStep]) -> Result<Vec<Key>, Memory>
    ensures { IfOk result (λ keys. keys.items ≡ path_keys path.now) }
{
    let mut keys = Vec::new(alloc);
    for step in path {
        put_keys(&mut keys, *step)?;
    }
    Ok(keys)
}

/// The keys that lead to a place, and last the first key of the form that stands there; of an action, its first key. Where
/// the contract has no such place, the keys are those of the steps up to the one that leaves the contract.
pub fn keys_of(alloc: Global, contract: &Contract, place: &[PathStep]) -> Result<Vec<Key>, Memory>
    ensures { IfOk result (λ keys. keys.items ≡ keys_of place.now (contract_tree contract.now)) }
{
    let mut keys = Vec::new(alloc);
    let mut at = contract;
    for step in place {
        put_keys(&mut keys, *step)?;
        match part_behind(at, *step) {
            Some(part) => at = part,
            None => {
                put_last_key(&mut keys, at, *step)?;
                return Ok(keys);
            }
        }
    }
    keys.push(form_key(at))?;
    Ok(keys)
}

// The keys of a step.
fn put_keys(keys: &mut Vec<Key>, step: PathStep) -> Result<(), Memory>
    ensures { OnOk result (keys.new.items ≡ keys.old.items ++ step_keys step) }
{
    match step {
        PathStep::Then => put_key(keys, Key::Then),
        PathStep::Else => put_key(keys, Key::Else),
        PathStep::TimeoutContinuation => put_key(keys, Key::TimeoutContinuation),
        PathStep::Case(index) => put_case_keys(keys, index, Key::Then),
        PathStep::Action(index) => put_case_keys(keys, index, Key::Case),
    }
}

fn put_key(keys: &mut Vec<Key>, key: Key) -> Result<(), Memory>
    ensures { OnOk result (keys.new.items ≡ keys.old.items ++ key ∷ []) }
{
    keys.push(key)?;
    Ok(())
}

fn put_case_keys(keys: &mut Vec<Key>, index: usize, last: Key) -> Result<(), Memory>
    ensures { OnOk result (keys.new.items ≡ keys.old.items ++ (Key.When ∷ (Key.Item index ∷ (last ∷ [])))) }
{
    keys.push(Key::When)?;
    keys.push(Key::Item(index))?;
    keys.push(last)?;
    Ok(())
}

// The key of the action that a step leads to, where it leads to one.
fn put_last_key(keys: &mut Vec<Key>, at: &Contract, step: PathStep) -> Result<(), Memory>
    ensures { OnOk result (keys.new.items ≡ keys.old.items ++ last_key (contract_tree at.now) step) }
{
    match at {
        Contract::When(cases, _, _) => match step {
            PathStep::Action(index) => put_action_key(keys, cases.as_slice(), index),
            _ => Ok(()),
        },
        Contract::Close
        | Contract::Pay(_, _, _, _, _)
        | Contract::If(_, _, _)
        | Contract::Let(_, _, _)
        | Contract::Assert(_, _) => Ok(()),
    }
}

// The first key of the action of a case, if there is such a case.
fn put_action_key(keys: &mut Vec<Key>, cases: &[Case], index: usize) -> Result<(), Memory>
    ensures { OnOk result (keys.new.items ≡ keys.old.items ++ case_key (case_trees (map case_tree cases.now)) index) }
{
    match cases.get(index) {
        Some(case) => put_key(keys, action_key(&case.action)),
        None => Ok(()),
    }
}

// The first key of a contract's form: `close` of Close, which has none.
fn form_key(contract: &Contract) -> Key
    ensures { result ≡ form_key (contract_tree contract.now) }
{
    match contract {
        Contract::Close => Key::Close,
        Contract::Pay(_, _, _, _, _) => Key::Pay,
        Contract::If(_, _, _) => Key::If,
        Contract::When(_, _, _) => Key::When,
        Contract::Let(_, _, _) => Key::Let,
        Contract::Assert(_, _) => Key::Assert,
    }
}

fn action_key(action: &Action) -> Key
    ensures { result ≡ action_key (action_tree action.now) }
{
    match action {
        Action::Deposit(_, _, _, _) => Key::Deposits,
        Action::Choice(_, _) => Key::ChooseBetween,
        Action::Notify(_) => Key::NotifyIf,
    }
}
