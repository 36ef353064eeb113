//! How high a contract is, and how many nodes it has, counted up to a limit. No memory is taken.
ghost use Rattle.std.specs.Prelude.{◌≤◌, ◌↔◌, IsTrue, map};
ghost use Rattle.contract.specs.Tree.{value_tree, observation_tree, action_tree, case_tree, case_trees, contract_tree};
ghost use Rattle.table.specs.Heights.{value_height, observation_height, case_over, contract_height};
ghost use Rattle.lowering.specs.Sizes.{value_size, observation_size, action_size, conts, conts_of, others, others_of, Leaves};
ghost use Rattle.lowering.specs.Building.{cases_height, others_of_case};

use contract::{Action, Case, Contract, Items, Observation, Value};

// ---- heights

#[cycle(is_low_value)]
#[tactic(auto, using(crate::proofs::Forms::value_forms))]
fn is_low_value(value: &Value, room: u16) -> bool
    ensures { IsTrue result ↔ (value_height (value_tree value.now) ≤ room) }
{
    match value {
        Value::AvailableMoney(_, _)
        | Value::Constant(_)
        | Value::ChoiceValue(_)
        | Value::TimeIntervalStart
        | Value::TimeIntervalEnd
        | Value::UseValue(_) => true,
        Value::NegValue(a) => room > 0 && is_low_value(a.get(), room - 1),
        Value::AddValue(a, b)
        | Value::SubValue(a, b)
        | Value::MulValue(a, b)
        | Value::DivValue(a, b) => {
            room > 0 && is_low_value(a.get(), room - 1) && is_low_value(b.get(), room - 1)
        }
        Value::Cond(o, a, b) => {
            room > 0
                && is_low_observation(o.get(), room - 1)
                && is_low_value(a.get(), room - 1)
                && is_low_value(b.get(), room - 1)
        }
    }
}

#[cycle(is_low_value)]
#[tactic(auto, using(crate::proofs::Forms::observation_forms))]
fn is_low_observation(observation: &Observation, room: u16) -> bool
    ensures { IsTrue result ↔ (observation_height (observation_tree observation.now) ≤ room) }
{
    match observation {
        Observation::ChoseSomething(_) | Observation::TrueObs | Observation::FalseObs => true,
        Observation::NotObs(a) => room > 0 && is_low_observation(a.get(), room - 1),
        Observation::AndObs(a, b) | Observation::OrObs(a, b) => {
            room > 0
                && is_low_observation(a.get(), room - 1)
                && is_low_observation(b.get(), room - 1)
        }
        Observation::ValueGE(a, b)
        | Observation::ValueGT(a, b)
        | Observation::ValueLT(a, b)
        | Observation::ValueLE(a, b)
        | Observation::ValueEQ(a, b) => {
            room > 0 && is_low_value(a.get(), room - 1) && is_low_value(b.get(), room - 1)
        }
    }
}

/// Whether a contract is at most as high as there is room. Goes no deeper into the tree than that and one more.
#[cycle(is_low_contract)]
#[tactic(auto, using(crate::proofs::Trees::contract_forms))]
pub fn is_low_contract(contract: &Contract, room: u16) -> bool
    ensures { IsTrue result ↔ (contract_height (contract_tree contract.now) ≤ room) }
{
    match contract {
        Contract::Close => true,
        Contract::Pay(_, _, _, value, then) | Contract::Let(_, value, then) => {
            room > 0 && is_low_value(value, room - 1) && is_low_contract(then.get(), room - 1)
        }
        Contract::If(observation, then, otherwise) => {
            room > 0
                && is_low_observation(observation, room - 1)
                && is_low_contract(then.get(), room - 1)
                && is_low_contract(otherwise.get(), room - 1)
        }
        Contract::When(cases, _, then) => {
            room > 0 && are_low_cases(cases, room - 1) && is_low_contract(then.get(), room - 1)
        }
        Contract::Assert(observation, then) => {
            room > 0
                && is_low_observation(observation, room - 1)
                && is_low_contract(then.get(), room - 1)
        }
    }
}

// Whether what an action waits for is lower than the room.
fn is_low_action(action: &Action, room: u16) -> bool
    ensures { IsTrue result ↔ (case_over (action_tree action.now) 0 ≤ room) }
{
    match action {
        Action::Deposit(_, _, _, value) => room > 0 && is_low_value(value, room - 1),
        Action::Choice(_, _) => room > 0,
        Action::Notify(observation) => room > 0 && is_low_observation(observation, room - 1),
    }
}

#[cycle(is_low_contract)]
#[tactic(auto, using(crate::proofs::Trees::case_levels))]
fn is_low_case(case: &Case, room: u16) -> bool
    ensures { IsTrue result ↔ (case_over (action_tree case.now.action) (contract_height (contract_tree case.now.then)) ≤ room) }
{
    room > 0 && is_low_action(&case.action, room) && is_low_contract(&case.then, room - 1)
}

#[cycle(is_low_contract)]
#[tactic(auto, using(crate::proofs::Cases::rests))]
fn are_low_cases(cases: &Items<Case>, room: u16) -> bool
    ensures { IsTrue result ↔ (cases_height (case_trees (map case_tree cases.now)) ≤ room) }
{
    for case in cases.as_slice() {
        if !is_low_case(case, room) {
            return false;
        }
    }
    true
}

// ---- nodes: what is left of the room, or nothing where it doesn't suffice

#[cycle(values_left)]
#[tactic(auto, using(crate::proofs::Forms::value_forms))]
fn values_left(value: &Value, room: u32) -> Option<u32>
    ensures { Leaves room (value_size (value_tree value.now)) result }
{
    let room = room.checked_sub(1)?;
    match value {
        Value::AvailableMoney(_, _)
        | Value::Constant(_)
        | Value::ChoiceValue(_)
        | Value::TimeIntervalStart
        | Value::TimeIntervalEnd
        | Value::UseValue(_) => Some(room),
        Value::NegValue(a) => values_left(a.get(), room),
        Value::AddValue(a, b)
        | Value::SubValue(a, b)
        | Value::MulValue(a, b)
        | Value::DivValue(a, b) => values_left(b.get(), values_left(a.get(), room)?),
        Value::Cond(o, a, b) => {
            let room = observations_left(o.get(), room)?;
            values_left(b.get(), values_left(a.get(), room)?)
        }
    }
}

#[cycle(values_left)]
#[tactic(auto, using(crate::proofs::Forms::observation_forms))]
fn observations_left(observation: &Observation, room: u32) -> Option<u32>
    ensures { Leaves room (observation_size (observation_tree observation.now)) result }
{
    let room = room.checked_sub(1)?;
    match observation {
        Observation::ChoseSomething(_) | Observation::TrueObs | Observation::FalseObs => Some(room),
        Observation::NotObs(a) => observations_left(a.get(), room),
        Observation::AndObs(a, b) | Observation::OrObs(a, b) => {
            observations_left(b.get(), observations_left(a.get(), room)?)
        }
        Observation::ValueGE(a, b)
        | Observation::ValueGT(a, b)
        | Observation::ValueLT(a, b)
        | Observation::ValueLE(a, b)
        | Observation::ValueEQ(a, b) => values_left(b.get(), values_left(a.get(), room)?),
    }
}

#[tactic(auto, unfolding(crate::specs::Sizes::action_size))]
fn actions_left(action: &Action, room: u32) -> Option<u32>
    ensures { Leaves room (action_size (action_tree action.now)) result }
{
    match action {
        Action::Deposit(_, _, _, value) => values_left(value, room),
        Action::Choice(_, _) => Some(room),
        Action::Notify(observation) => observations_left(observation, room),
    }
}

/// What a contract's continuations leave of the room, or nothing where there are more.
#[cycle(conts_left)]
#[tactic(auto, using(crate::proofs::Trees::contract_forms))]
pub fn conts_left(contract: &Contract, room: u32) -> Option<u32>
    ensures { Leaves room (conts (contract_tree contract.now)) result }
{
    let room = room.checked_sub(1)?;
    match contract {
        Contract::Close => Some(room),
        Contract::Pay(_, _, _, _, then) | Contract::Let(_, _, then) | Contract::Assert(_, then) => {
            conts_left(then.get(), room)
        }
        Contract::If(_, then, otherwise) => {
            conts_left(otherwise.get(), conts_left(then.get(), room)?)
        }
        Contract::When(cases, _, then) => conts_left(then.get(), conts_left_by(cases, room)?),
    }
}

#[cycle(conts_left)]
#[tactic(auto, using(crate::proofs::Cases::rests))]
fn conts_left_by(cases: &Items<Case>, room: u32) -> Option<u32>
    ensures { Leaves room (conts_of (case_trees (map case_tree cases.now))) result }
{
    let mut left = room;
    for case in cases.as_slice() {
        left = conts_left(&case.then, left)?;
    }
    Some(left)
}

/// What a contract's values, observations and cases leave of the room, or nothing where there are more.
#[cycle(others_left)]
#[tactic(auto, using(crate::proofs::Trees::contract_forms))]
pub fn others_left(contract: &Contract, room: u32) -> Option<u32>
    ensures { Leaves room (others (contract_tree contract.now)) result }
{
    match contract {
        Contract::Close => Some(room),
        Contract::Pay(_, _, _, value, then) | Contract::Let(_, value, then) => {
            others_left(then.get(), values_left(value, room)?)
        }
        Contract::If(observation, then, otherwise) => {
            let room = observations_left(observation, room)?;
            others_left(otherwise.get(), others_left(then.get(), room)?)
        }
        Contract::When(cases, _, then) => others_left(then.get(), others_left_by(cases, room)?),
        Contract::Assert(observation, then) => {
            others_left(then.get(), observations_left(observation, room)?)
        }
    }
}

#[cycle(others_left)]
fn others_left_of(case: &Case, room: u32) -> Option<u32>
    ensures { Leaves room (others_of_case case.now) result }
{
    let room = room.checked_sub(1)?;
    others_left(&case.then, actions_left(&case.action, room)?)
}

#[cycle(others_left)]
#[tactic(auto, using(crate::proofs::Cases::rests))]
fn others_left_by(cases: &Items<Case>, room: u32) -> Option<u32>
    ensures { Leaves room (others_of (case_trees (map case_tree cases.now))) result }
{
    let mut left = room;
    for case in cases.as_slice() {
        left = others_left_of(case, left)?;
    }
    Some(left)
}
