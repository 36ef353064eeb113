//! Notes on names and choices.
ghost use Rattle.std.specs.Prelude.{◌≡◌, [], ◌∷◌, ◌++◌, map, IfOk, OnOk};
ghost use Rattle.contract.specs.Tree.{value_tree, observation_tree, action_tree, case_tree, case_trees, contract_tree};
ghost use Rattle.contract_notes.specs.Notes.{is_known, missing, missing_in, unbound_at, unread_at, action_notes, notes_in, notes_of_cases, notes_of};

use crate::bounds::is_varied;
use crate::note::{Note, Remark, Source};
use crate::reads::is_read_in;
use crate::unbound::{Spot, add_missing, add_missing_in};
use analysis_spec::PathStep;
use contract::{Action, Case, Contract, Items, Memory, Observation, State, TryClone, Value};
use std::alloc::Global;

/// What is noted of names and choices of a contract that starts in a state, in the order of the contract. It takes the length of the
/// contract, times how deep it nests; of a place that reads many names that nothing binds the square of their number.
pub fn notes_of(alloc: Global, contract: &Contract, state: &State) -> Result<Items<Note>, Memory>
    ensures { IfOk result (λ notes. notes ≡ notes_of state.now (contract_tree contract.now)) }
{
    let mut notes = Items::new(alloc);
    let spot = Spot {
        root: contract,
        state,
        here: &[],
    };
    walk(alloc, spot, contract, &mut notes)?;
    Ok(notes)
}

// Adds the notes of a part to which the way of a spot leads, and of all that lies in it.
#[cycle(walk)]
#[tactic(auto, using(crate::proofs::WalkLemmas::two_pieces, crate::proofs::WalkLemmas::three_pieces, crate::proofs::WalkLemmas::no_piece))]
fn walk(
    alloc: Global,
    spot: Spot<'_>,
    contract: &Contract,
    notes: &mut Items<Note>,
) -> Result<(), Memory>
    ensures { OnOk result (notes.new
        ≡ notes.old ++ notes_in spot.entry.state.now (contract_tree spot.entry.root.now) spot.entry.here.now (contract_tree contract.now)) }
{
    match contract {
        Contract::Close => Ok(()),
        Contract::Pay(_, _, _, amount, then) => {
            note_value(alloc, spot, spot.here, amount, notes)?;
            walk_on(alloc, spot, PathStep::Then, then.get(), notes)
        }
        Contract::If(observation, then, otherwise) => {
            note_observation(alloc, spot, spot.here, observation, notes)?;
            walk_on(alloc, spot, PathStep::Then, then.get(), notes)?;
            walk_on(alloc, spot, PathStep::Else, otherwise.get(), notes)
        }
        Contract::When(cases, _, then) => {
            walk_cases(alloc, spot, cases, notes)?;
            walk_on(
                alloc,
                spot,
                PathStep::TimeoutContinuation,
                then.get(),
                notes,
            )
        }
        Contract::Let(name, value, then) => {
            note_value(alloc, spot, spot.here, value, notes)?;
            let source = Source::Name(name.try_clone()?);
            note_unread(alloc, spot.here, source, then.get(), notes)?;
            walk_on(alloc, spot, PathStep::Then, then.get(), notes)
        }
        Contract::Assert(observation, then) => {
            note_observation(alloc, spot, spot.here, observation, notes)?;
            walk_on(alloc, spot, PathStep::Then, then.get(), notes)
        }
    }
}

// .. of the part behind a step.
#[cycle(walk)]
fn walk_on(
    alloc: Global,
    spot: Spot<'_>,
    step: PathStep,
    contract: &Contract,
    notes: &mut Items<Note>,
) -> Result<(), Memory>
    ensures { OnOk result (notes.new
        ≡ notes.old ++ notes_in spot.entry.state.now (contract_tree spot.entry.root.now) (spot.entry.here.now ++ step ∷ []) (contract_tree contract.now)) }
{
    let way = longer(alloc, spot.here, step)?;
    let next = Spot {
        root: spot.root,
        state: spot.state,
        here: way.as_slice(),
    };
    walk(alloc, next, contract, notes)
}

// .. of cases.
#[cycle(walk)]
fn walk_cases(
    alloc: Global,
    spot: Spot<'_>,
    cases: &Items<Case>,
    notes: &mut Items<Note>,
) -> Result<(), Memory>
    ensures { OnOk result (notes.new
        ≡ notes.old ++ notes_of_cases spot.entry.state.now (contract_tree spot.entry.root.now) spot.entry.here.now 0 (case_trees (map case_tree cases.now))) }
{
    let mut index: usize = 0;
    for case in cases.as_slice() {
        note_action(alloc, spot, index, case, notes)?;
        walk_on(alloc, spot, PathStep::Case(index), &case.then, notes)?;
        index += 1;
    }
    Ok(())
}

// Adds the notes of what a case waits for.
#[tactic(auto, using(crate::proofs::WalkLemmas::two_pieces, crate::proofs::WalkLemmas::three_pieces, crate::proofs::WalkLemmas::no_piece))]
fn note_action(
    alloc: Global,
    spot: Spot<'_>,
    index: usize,
    case: &Case,
    notes: &mut Items<Note>,
) -> Result<(), Memory>
    ensures { OnOk result (notes.new ≡ notes.old
        ++ action_notes (is_known spot.entry.state.now (contract_tree spot.entry.root.now) spot.entry.here.now) (spot.entry.here.now ++ PathStep.Action index ∷ [])
        (action_tree case.now.action) (contract_tree case.now.then)) }
{
    let at = longer(alloc, spot.here, PathStep::Action(index))?;
    match &case.action {
        Action::Deposit(_, _, _, amount) => {
            note_value(alloc, spot, at.as_slice(), amount, notes)
        }
        Action::Notify(observation) => {
            note_observation(alloc, spot, at.as_slice(), observation, notes)
        }
        Action::Choice(id, bounds) => {
            if is_varied(bounds.as_slice()) {
                let source = Source::Choice(id.try_clone()?);
                note_unread(alloc, at.as_slice(), source, &case.then, notes)
            } else {
                Ok(())
            }
        }
    }
}

// Adds a note if nothing behind reads it.
#[tactic(auto, using(crate::proofs::WalkLemmas::two_pieces, crate::proofs::WalkLemmas::three_pieces, crate::proofs::WalkLemmas::no_piece))]
fn note_unread(
    alloc: Global,
    at: &[PathStep],
    source: Source,
    then: &Contract,
    notes: &mut Items<Note>,
) -> Result<(), Memory>
    ensures { OnOk result (notes.new ≡ notes.old ++ unread_at at.now source (contract_tree then.now)) }
{
    if is_read_in(&source, then) {
        return Ok(());
    }
    let place = place_of(alloc, at)?;
    notes.push(Note {
        place,
        remark: Remark::Unread(source),
    })?;
    Ok(())
}

// Adds what a value reads and what is missing there.
fn note_value(
    alloc: Global,
    spot: Spot<'_>,
    at: &[PathStep],
    value: &Value,
    notes: &mut Items<Note>,
) -> Result<(), Memory>
    ensures { OnOk result (notes.new ≡ notes.old
        ++ unbound_at at.now (missing (is_known spot.entry.state.now (contract_tree spot.entry.root.now) spot.entry.here.now) [] (value_tree value.now))) }
{
    let mut found = Items::new(alloc);
    add_missing(spot, value, &mut found)?;
    put_unbound(alloc, at, found, notes)
}

// .. an observation.
fn note_observation(
    alloc: Global,
    spot: Spot<'_>,
    at: &[PathStep],
    observation: &Observation,
    notes: &mut Items<Note>,
) -> Result<(), Memory>
    ensures { OnOk result (notes.new ≡ notes.old
        ++ unbound_at at.now (missing_in (is_known spot.entry.state.now (contract_tree spot.entry.root.now) spot.entry.here.now) [] (observation_tree observation.now))) }
{
    let mut found = Items::new(alloc);
    add_missing_in(spot, observation, &mut found)?;
    put_unbound(alloc, at, found, notes)
}

fn put_unbound(
    alloc: Global,
    at: &[PathStep],
    found: Items<Source>,
    notes: &mut Items<Note>,
) -> Result<(), Memory>
    ensures { OnOk result (notes.new ≡ notes.old ++ unbound_at at.now found) }
{
    for source in found.into_vec() {
        let place = place_of(alloc, at)?;
        notes.push(Note {
            place,
            remark: Remark::Unbound(source),
        })?;
    }
    Ok(())
}

fn place_of(alloc: Global, steps: &[PathStep]) -> Result<Items<PathStep>, Memory>
    ensures { IfOk result (λ place. place ≡ steps.now) }
{
    let place = Vec::from_slice(alloc, steps)?;
    Ok(Items::from_vec(place))
}

// A way with a step more.
fn longer(alloc: Global, here: &[PathStep], step: PathStep) -> Result<Vec<PathStep>, Memory>
    ensures { IfOk result (λ way. way.items ≡ here.now ++ step ∷ []) }
{
    let mut way = Vec::from_slice(alloc, here)?;
    way.push(step)?;
    Ok(way)
}
