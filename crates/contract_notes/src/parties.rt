//! Parties that a contract names at one place alone.
ghost use Rattle.std.specs.Prelude.{◌≡◌, [], ◌∷◌, ◌++◌, map, IfOk, OnOk};
ghost use Rattle.contract.specs.Tree.{value_tree, observation_tree, action_tree, case_tree, case_trees, contract_tree};
ghost use Rattle.contract_notes.specs.Parties.{tallied, tally, not_again, parties_of, parties_in, parties_awaited, parties_named, parties_by, once_of, payee_party};

use contract::{
    Action, Case, Contract, Entries, Items, Memory, Observation, Party, Payee, TryClone, Value,
};
use std::alloc::Global;

/// The parties that a contract names at one place alone, in their order.
pub fn named_once(alloc: Global, contract: &Contract) -> Result<Items<Party>, Memory>
    ensures { IfOk result (λ once. once ≡ once_of (parties_named (contract_tree contract.now))) }
{
    let mut named = Items::new(alloc);
    add_named(contract, &mut named)?;
    let seen = seen_of(alloc, named.as_slice())?;
    let once = not_again(alloc, seen.as_slice())?;
    Ok(once)
}

// Parties, each with whether it stands there again.
fn seen_of(alloc: Global, named: &[Party]) -> Result<Entries<Party, bool>, Memory>
    ensures { IfOk result (λ seen. seen ≡ tally [] named.now) }
{
    let mut seen = Entries::new(alloc);
    for party in named {
        see(party, &mut seen)?;
    }
    Ok(seen)
}

// Those that weren't seen again.
fn not_again(alloc: Global, seen: &[(Party, bool)]) -> Result<Items<Party>, Memory>
    ensures { IfOk result (λ once. once ≡ not_again seen.now) }
{
    let mut once = Items::new(alloc);
    for (party, again) in seen {
        if !*again {
            once.push(party.try_clone()?)?;
        }
    }
    Ok(once)
}

// A party is seen: for the first time, or again.
fn see(party: &Party, seen: &mut Entries<Party, bool>) -> Result<(), Memory>
    ensures { OnOk result (seen.new ≡ tallied party.now seen.old) }
{
    let again = seen.get(party).is_some();
    seen.set(party, again)
}

// Adds the parties that a contract names.
#[cycle(contracts)]
#[tactic(auto, using(crate::proofs::WalkLemmas::two_pieces, crate::proofs::WalkLemmas::three_pieces, crate::proofs::WalkLemmas::no_piece, crate::proofs::TallyLemmas::two_with_more))]
fn add_named(contract: &Contract, named: &mut Items<Party>) -> Result<(), Memory>
    ensures { OnOk result (named.new ≡ named.old ++ parties_named (contract_tree contract.now)) }
{
    match contract {
        Contract::Close => Ok(()),
        Contract::Pay(from, to, _, amount, then) => {
            add_moved(from, party_of(to), amount, named)?;
            add_named(then.get(), named)
        }
        Contract::If(observation, then, otherwise) => {
            add_observed(observation, named)?;
            add_named(then.get(), named)?;
            add_named(otherwise.get(), named)
        }
        Contract::When(cases, _, then) => {
            add_by(cases, named)?;
            add_named(then.get(), named)
        }
        Contract::Let(_, value, then) => {
            add_valued(value, named)?;
            add_named(then.get(), named)
        }
        Contract::Assert(observation, then) => {
            add_observed(observation, named)?;
            add_named(then.get(), named)
        }
    }
}

#[cycle(contracts)]
fn add_by(cases: &Items<Case>, named: &mut Items<Party>) -> Result<(), Memory>
    ensures { OnOk result (named.new ≡ named.old ++ parties_by (case_trees (map case_tree cases.now))) }
{
    for case in cases.as_slice() {
        add_awaited(&case.action, named)?;
        add_named(&case.then, named)?;
    }
    Ok(())
}

fn add_awaited(action: &Action, named: &mut Items<Party>) -> Result<(), Memory>
    ensures { OnOk result (named.new ≡ named.old ++ parties_awaited (action_tree action.now)) }
{
    match action {
        Action::Deposit(account, party, _, amount) => add_moved(account, party, amount, named),
        Action::Choice(id, _) => add(&id.owner, named),
        Action::Notify(observation) => add_observed(observation, named),
    }
}

// Adds two parties, and those that an amount names.
#[tactic(auto, using(crate::proofs::TallyLemmas::two_and_more))]
fn add_moved(
    from: &Party,
    to: &Party,
    amount: &Value,
    named: &mut Items<Party>,
) -> Result<(), Memory>
    ensures { OnOk result (named.new ≡ named.old ++ from.now ∷ to.now ∷ parties_of (value_tree amount.now)) }
{
    add(from, named)?;
    add(to, named)?;
    add_valued(amount, named)
}

fn party_of(payee: &Payee) -> &Party
    ensures { result.now ≡ payee_party payee.now }
{
    match payee {
        Payee::Account(party) => party,
        Payee::Party(party) => party,
    }
}

fn add(party: &Party, named: &mut Items<Party>) -> Result<(), Memory>
    ensures { OnOk result (named.new ≡ named.old ++ party.now ∷ []) }
{
    let copy = party.try_clone()?;
    named.push(copy)
}

#[cycle(values)]
#[tactic(auto, using(crate::proofs::WalkLemmas::two_pieces, crate::proofs::WalkLemmas::no_piece))]
fn add_valued(value: &Value, named: &mut Items<Party>) -> Result<(), Memory>
    ensures { OnOk result (named.new ≡ named.old ++ parties_of (value_tree value.now)) }
{
    match value {
        Value::AvailableMoney(owner, _) => add(owner, named),
        Value::Constant(_)
        | Value::TimeIntervalStart
        | Value::TimeIntervalEnd
        | Value::UseValue(_) => Ok(()),
        Value::NegValue(a) => add_valued(a.get(), named),
        Value::AddValue(a, b) => add_both(a.get(), b.get(), named),
        Value::SubValue(a, b) => add_both(a.get(), b.get(), named),
        Value::MulValue(a, b) => add_both(a.get(), b.get(), named),
        Value::DivValue(a, b) => add_both(a.get(), b.get(), named),
        Value::ChoiceValue(id) => add(&id.owner, named),
        Value::Cond(observation, a, b) => {
            add_observed(observation.get(), named)?;
            add_both(a.get(), b.get(), named)
        }
    }
}

#[cycle(values)]
#[tactic(auto, using(crate::proofs::WalkLemmas::two_pieces))]
fn add_both(a: &Value, b: &Value, named: &mut Items<Party>) -> Result<(), Memory>
    ensures { OnOk result (named.new ≡ named.old ++ (parties_of (value_tree a.now) ++ parties_of (value_tree b.now))) }
{
    add_valued(a, named)?;
    add_valued(b, named)
}

#[cycle(values)]
#[tactic(auto, using(crate::proofs::WalkLemmas::two_pieces, crate::proofs::WalkLemmas::no_piece))]
fn add_observed(observation: &Observation, named: &mut Items<Party>) -> Result<(), Memory>
    ensures { OnOk result (named.new ≡ named.old ++ parties_in (observation_tree observation.now)) }
{
    match observation {
        Observation::AndObs(a, b) => add_observations(a.get(), b.get(), named),
        Observation::OrObs(a, b) => add_observations(a.get(), b.get(), named),
        Observation::NotObs(a) => add_observed(a.get(), named),
        Observation::ChoseSomething(id) => add(&id.owner, named),
        Observation::TrueObs | Observation::FalseObs => Ok(()),
        Observation::ValueGE(a, b) => add_both(a.get(), b.get(), named),
        Observation::ValueGT(a, b) => add_both(a.get(), b.get(), named),
        Observation::ValueLT(a, b) => add_both(a.get(), b.get(), named),
        Observation::ValueLE(a, b) => add_both(a.get(), b.get(), named),
        Observation::ValueEQ(a, b) => add_both(a.get(), b.get(), named),
    }
}

#[cycle(values)]
#[tactic(auto, using(crate::proofs::WalkLemmas::two_pieces))]
fn add_observations(
    a: &Observation,
    b: &Observation,
    named: &mut Items<Party>,
) -> Result<(), Memory>
    ensures { OnOk result (named.new ≡ named.old ++ (parties_in (observation_tree a.now) ++ parties_in (observation_tree b.now))) }
{
    add_observed(a, named)?;
    add_observed(b, named)
}
