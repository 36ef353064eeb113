//! What is read where nothing binds or makes it.
ghost use Rattle.std.specs.Prelude.{◌≡◌, map, Some, OnOk};
ghost use Rattle.std.specs.List.{list_any};
ghost use Rattle.contract.specs.Tree.{value_tree, observation_tree, action_tree, case_tree, case_trees, contract_tree};
ghost use Rattle.contract_notes.specs.Reads.{same_source};
ghost use Rattle.contract_notes.specs.Notes.{has, makes_it, makes, gives, is_given_along, is_known, with_missing, missing, missing_in};

use crate::note::Source;
use crate::reads::{is_choice, is_name, is_same};
use analysis_spec::PathStep;
use analysis_walk::part_behind;
use contract::{Action, Case, Contract, Items, Memory, Observation, State, TryClone, Value};

/// Where a value stands: the whole contract, the state from which it starts, and the way to the place.
#[derive(Clone, Copy)]
pub(crate) struct Spot<'a> {
    pub(crate) root: &'a Contract,
    pub(crate) state: &'a State,
    pub(crate) here: &'a [PathStep],
}

/// Adds what a value reads and what is missing there, unless it was added before.
#[cycle(missing)]
pub(crate) fn add_missing(
    spot: Spot<'_>,
    value: &Value,
    found: &mut Items<Source>,
) -> Result<(), Memory>
    ensures { OnOk result (found.new
        ≡ missing (is_known spot.entry.state.now (contract_tree spot.entry.root.now) spot.entry.here.now) found.old (value_tree value.now)) }
{
    match value {
        Value::AvailableMoney(_, _)
        | Value::Constant(_)
        | Value::TimeIntervalStart
        | Value::TimeIntervalEnd => Ok(()),
        Value::NegValue(a) => add_missing(spot, a.get(), found),
        Value::AddValue(a, b) => add_both(spot, a.get(), b.get(), found),
        Value::SubValue(a, b) => add_both(spot, a.get(), b.get(), found),
        Value::MulValue(a, b) => add_both(spot, a.get(), b.get(), found),
        Value::DivValue(a, b) => add_both(spot, a.get(), b.get(), found),
        Value::ChoiceValue(id) => add(spot, Source::Choice(id.try_clone()?), found),
        Value::UseValue(name) => add(spot, Source::Name(name.try_clone()?), found),
        Value::Cond(observation, a, b) => {
            add_missing_in(spot, observation.get(), found)?;
            add_both(spot, a.get(), b.get(), found)
        }
    }
}

// .. two values.
#[cycle(missing)]
fn add_both(spot: Spot<'_>, a: &Value, b: &Value, found: &mut Items<Source>) -> Result<(), Memory>
    ensures { OnOk result (found.new
        ≡ missing (is_known spot.entry.state.now (contract_tree spot.entry.root.now) spot.entry.here.now)
        (missing (is_known spot.entry.state.now (contract_tree spot.entry.root.now) spot.entry.here.now) found.old (value_tree a.now)) (value_tree b.now)) }
{
    add_missing(spot, a, found)?;
    add_missing(spot, b, found)
}

/// .. an observation.
#[cycle(missing)]
pub(crate) fn add_missing_in(
    spot: Spot<'_>,
    observation: &Observation,
    found: &mut Items<Source>,
) -> Result<(), Memory>
    ensures { OnOk result (found.new
        ≡ missing_in (is_known spot.entry.state.now (contract_tree spot.entry.root.now) spot.entry.here.now) found.old (observation_tree observation.now)) }
{
    match observation {
        Observation::AndObs(a, b) => {
            add_missing_in(spot, a.get(), found)?;
            add_missing_in(spot, b.get(), found)
        }
        Observation::OrObs(a, b) => {
            add_missing_in(spot, a.get(), found)?;
            add_missing_in(spot, b.get(), found)
        }
        Observation::NotObs(a) => add_missing_in(spot, a.get(), found),
        Observation::ChoseSomething(_) | Observation::TrueObs | Observation::FalseObs => Ok(()),
        Observation::ValueGE(a, b) => add_both(spot, a.get(), b.get(), found),
        Observation::ValueGT(a, b) => add_both(spot, a.get(), b.get(), found),
        Observation::ValueLT(a, b) => add_both(spot, a.get(), b.get(), found),
        Observation::ValueLE(a, b) => add_both(spot, a.get(), b.get(), found),
        Observation::ValueEQ(a, b) => add_both(spot, a.get(), b.get(), found),
    }
}

// Adds what is read, if it is missing and wasn't added before.
fn add(spot: Spot<'_>, source: Source, found: &mut Items<Source>) -> Result<(), Memory>
    ensures { OnOk result (found.new
        ≡ with_missing (is_known spot.entry.state.now (contract_tree spot.entry.root.now) spot.entry.here.now) found.old source) }
{
    if is_known(spot, &source) || is_among(&source, found.as_slice()) {
        return Ok(());
    }
    found.push(source)?;
    Ok(())
}

fn is_among(source: &Source, found: &[Source]) -> bool
    ensures { result ≡ list_any (same_source source.now) found.now }
{
    for other in found {
        if is_same(source, other) {
            return true;
        }
    }
    false
}

fn is_known(spot: Spot<'_>, source: &Source) -> bool
    ensures { result ≡ is_known spot.entry.state.now (contract_tree spot.entry.root.now) spot.entry.here.now source.now }
{
    has(spot.state, source) || is_given_along(source, spot.root, spot.here)
}

fn has(state: &State, source: &Source) -> bool
    ensures { result ≡ has state.now source.now }
{
    match source {
        Source::Name(name) => state.bound(name).is_some(),
        Source::Choice(id) => state.choice(id).is_some(),
    }
}

// Whether a step on the way binds or makes it.
fn is_given_along(source: &Source, contract: &Contract, steps: &[PathStep]) -> bool
    ensures { result ≡ is_given_along source.now (Some (contract_tree contract.now)) steps.now }
{
    match steps {
        [] => false,
        [step, rest @ ..] => {
            if gives(source, contract, *step) {
                return true;
            }
            match part_behind(contract, *step) {
                Some(next) => is_given_along(source, next, rest),
                None => false,
            }
        }
    }
}

fn gives(source: &Source, contract: &Contract, step: PathStep) -> bool
    ensures { result ≡ gives source.now (contract_tree contract.now) step }
{
    match contract {
        Contract::Let(name, _, _) => step == PathStep::Then && is_name(source, name),
        Contract::When(cases, _, _) => match step {
            PathStep::Case(index) => makes(source, cases.as_slice(), index),
            _ => false,
        },
        _ => false,
    }
}

fn makes(source: &Source, cases: &[Case], index: usize) -> bool
    ensures { result ≡ makes source.now (case_trees (map case_tree cases.now)) index }
{
    match cases.get(index) {
        Some(case) => makes_it(source, &case.action),
        None => false,
    }
}

fn makes_it(source: &Source, action: &Action) -> bool
    ensures { result ≡ makes_it source.now (action_tree action.now) }
{
    match action {
        Action::Choice(id, _) => is_choice(source, id),
        Action::Deposit(_, _, _, _) | Action::Notify(_) => false,
    }
}
