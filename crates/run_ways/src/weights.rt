//! The work that parts of a contract take. To weigh a part takes as much work as its weight.
use crate::way::entries_of;
use crate::work::spend;
use analysis_spec::PathStep;
use contract::{
    Action, Bound, Case, ChoiceId, Contract, Observation, Party, Payee, State, Token, Value,
};

// What a Pay, a Let, a deposit and a choice take beside their values and names.
const PAY: u64 = 5;

const LET: u64 = 4;

const INPUT: u64 = 14;

// What a copy of an entry of a state takes.
const ENTRY: u64 = 12;

// Bytes of names and bounds of choices that are compared by a unit of work.
const BYTES: u64 = 128;

const BOUNDS: u64 = 4;

/// Weighs what a run looks at where it goes on from a contract by a step, or where it ends there. A look-up compares
/// no more than `looks` names. Tells whether there was as much work left.
pub(crate) fn weigh_step(
    contract: &Contract,
    step: Option<PathStep>,
    looks: u64,
    left: &mut u64,
) -> bool {
    match contract {
        Contract::When(cases, _, _) => match step {
            Some(PathStep::Case(index)) | Some(PathStep::Action(index)) => {
                weigh_case(cases.as_slice(), index, looks, left)
            }
            _ => spend(left, 1),
        },
        _ => weigh_own(contract, looks, left),
    }
}

// Weighs what stands at a contract that isn't a When.
fn weigh_own(contract: &Contract, looks: u64, left: &mut u64) -> bool {
    match contract {
        Contract::Close | Contract::When(_, _, _) => spend(left, 1),
        Contract::Pay(from, to, token, amount, _) => {
            let names = of_account(from, token).saturating_add(of_payee(to));
            spend(left, look(PAY, names, looks)) && weigh_value(amount, looks, left)
        }
        Contract::If(observation, _, _) | Contract::Assert(observation, _) => {
            weigh_observation(observation, looks, left)
        }
        Contract::Let(name, value, _) => {
            spend(left, look(LET, name.as_str().len(), looks)) && weigh_value(value, looks, left)
        }
    }
}

// Weighs a case, and the actions of those before it, which an input is tried against.
fn weigh_case(cases: &[Case], index: usize, looks: u64, left: &mut u64) -> bool {
    let Some(case) = cases.get(index) else {
        return spend(left, 1);
    };
    weigh_action(&case.action, looks, left) && weigh_trials(cases, index, &case.action, looks, left)
}

// Weighs the actions of the cases before one, which an input for its action is tried against.
fn weigh_trials(cases: &[Case], index: usize, action: &Action, looks: u64, left: &mut u64) -> bool {
    for other in cases.iter().take(index) {
        if !weigh_trial(&other.action, action, looks, left) {
            return false;
        }
    }
    true
}

// Weighs an action that is taken.
fn weigh_action(action: &Action, looks: u64, left: &mut u64) -> bool {
    match action {
        Action::Deposit(account, party, token, amount) => {
            let names = of_account(account, token).saturating_add(of_party(party));
            spend(left, look(INPUT, names, looks)) && weigh_value(amount, looks, left)
        }
        Action::Choice(id, _) => spend(left, look(INPUT, of_choice(id), looks)),
        Action::Notify(observation) => spend(left, 1)
            && weigh_observation(observation, looks, left),
    }
}

// Weighs an action that an input for another is tried against.
fn weigh_trial(action: &Action, other: &Action, looks: u64, left: &mut u64) -> bool {
    match (action, other) {
        (Action::Deposit(account, party, token, amount), Action::Deposit(_, _, _, _)) => {
            let names = of_account(account, token).saturating_add(of_party(party));
            spend(left, look(1, names, 1)) && weigh_value(amount, looks, left)
        }
        (Action::Choice(id, bounds), Action::Choice(_, _)) => {
            spend(left, look(of_bounds(bounds.as_slice()), of_choice(id), 1))
        }
        (Action::Notify(observation), Action::Notify(_)) => {
            weigh_observation(observation, looks, left)
        }
        _ => spend(left, 1),
    }
}

#[cycle(weigh)]
fn weigh_value(value: &Value, looks: u64, left: &mut u64) -> bool {
    if !spend(left, weight_of_value(value, looks)) {
        return false;
    }
    match value {
        Value::NegValue(a) => weigh_value(a.get(), looks, left),
        Value::AddValue(a, b) => weigh_values(a.get(), b.get(), looks, left),
        Value::SubValue(a, b) => weigh_values(a.get(), b.get(), looks, left),
        Value::MulValue(a, b) => weigh_values(a.get(), b.get(), looks, left),
        Value::DivValue(a, b) => weigh_values(a.get(), b.get(), looks, left),
        Value::Cond(observation, a, b) => {
            weigh_cond(observation.get(), a.get(), b.get(), looks, left)
        }
        _ => true,
    }
}

// What a value takes beside its parts.
fn weight_of_value(value: &Value, looks: u64) -> u64 {
    match value {
        Value::AvailableMoney(owner, token) => look(1, of_account(owner, token), looks),
        Value::ChoiceValue(id) => look(1, of_choice(id), looks),
        Value::UseValue(name) => look(1, name.as_str().len(), looks),
        _ => 2,
    }
}

#[cycle(weigh)]
fn weigh_values(a: &Value, b: &Value, looks: u64, left: &mut u64) -> bool {
    weigh_value(a, looks, left) && weigh_value(b, looks, left)
}

#[cycle(weigh)]
fn weigh_cond(observation: &Observation, a: &Value, b: &Value, looks: u64, left: &mut u64) -> bool {
    weigh_observation(observation, looks, left) && weigh_values(a, b, looks, left)
}

#[cycle(weigh)]
fn weigh_observation(observation: &Observation, looks: u64, left: &mut u64) -> bool {
    if !spend(left, 1) {
        return false;
    }
    match observation {
        Observation::AndObs(a, b) => weigh_observations(a.get(), b.get(), looks, left),
        Observation::OrObs(a, b) => weigh_observations(a.get(), b.get(), looks, left),
        Observation::NotObs(a) => weigh_observation(a.get(), looks, left),
        Observation::ValueGE(a, b) => weigh_values(a.get(), b.get(), looks, left),
        Observation::ValueGT(a, b) => weigh_values(a.get(), b.get(), looks, left),
        Observation::ValueLT(a, b) => weigh_values(a.get(), b.get(), looks, left),
        Observation::ValueLE(a, b) => weigh_values(a.get(), b.get(), looks, left),
        Observation::ValueEQ(a, b) => weigh_values(a.get(), b.get(), looks, left),
        Observation::ChoseSomething(id) => spend(left, look(1, of_choice(id), looks)),
        Observation::TrueObs | Observation::FalseObs => true,
    }
}

#[cycle(weigh)]
fn weigh_observations(a: &Observation, b: &Observation, looks: u64, left: &mut u64) -> bool {
    weigh_observation(a, looks, left) && weigh_observation(b, looks, left)
}

/// Weighs what a contract does until it waits or is closed, and returns the weight of its heaviest way there.
#[cycle(settles)]
pub(crate) fn weigh_settling(contract: &Contract, looks: u64, left: &mut u64) -> u64 {
    let before = *left;
    let _ = weigh_own(contract, looks, left);
    let own = before.saturating_sub(*left);
    if *left == 0 {
        return own;
    }
    let behind = match contract {
        Contract::Close => 0,
        Contract::Pay(_, _, _, _, then) => weigh_settling(then.get(), looks, left),
        Contract::Let(_, _, then) => weigh_settling(then.get(), looks, left),
        Contract::Assert(_, then) => weigh_settling(then.get(), looks, left),
        Contract::When(_, _, then) => weigh_settling(then.get(), looks, left),
        Contract::If(_, then, otherwise) => {
            weigh_either(then.get(), otherwise.get(), looks, left)
        }
    };
    own.saturating_add(behind)
}

#[cycle(settles)]
fn weigh_either(then: &Contract, otherwise: &Contract, looks: u64, left: &mut u64) -> u64 {
    let one = weigh_settling(then, looks, left);
    one.max(weigh_settling(otherwise, looks, left))
}

/// Weighs a copy of a state.
pub(crate) fn weigh_state(state: &State, left: &mut u64) -> u64 {
    let mut bytes: usize = 0;
    let count = entries_of(state) as u64;
    if !spend(left, count) {
        return count;
    }
    for (account, _) in state.accounts() {
        bytes = bytes.saturating_add(of_account(&account.owner, &account.token));
    }
    for (id, _) in state.choices() {
        bytes = bytes.saturating_add(of_choice(id));
    }
    for (name, _) in state.bound_values() {
        bytes = bytes.saturating_add(name.as_str().len());
    }
    look(count.saturating_mul(ENTRY), bytes, 1)
}

/// The work that it takes to find a number in these bounds.
pub(crate) fn of_bounds(bounds: &[Bound]) -> u64 {
    bounds.len() as u64 / BOUNDS
}

// The work that something takes with a look-up of names of so many bytes, which compares so many of them.
fn look(own: u64, bytes: usize, looks: u64) -> u64 {
    let one = bytes as u64 / BYTES + 1;
    own.saturating_add(1)
        .saturating_add(one.saturating_mul(looks) / 2)
}

fn of_party(party: &Party) -> usize {
    match party {
        Party::Address(text) | Party::Role(text) => text.as_str().len(),
    }
}

fn of_payee(payee: &Payee) -> usize {
    match payee {
        Payee::Account(party) | Payee::Party(party) => of_party(party),
    }
}

fn of_account(owner: &Party, token: &Token) -> usize {
    let symbol = token.symbol.as_slice().len();
    let named = symbol.saturating_add(token.name.as_str().len());
    of_party(owner).saturating_add(named)
}

fn of_choice(id: &ChoiceId) -> usize {
    id.name.as_str().len().saturating_add(of_party(&id.owner))
}
