//! The walk over a contract.
ghost use Rattle.std.specs.Prelude.{◌≡◌, ◌<◌, length, Some, OnOk};
ghost use Rattle.contract.specs.Tree.{contract_tree};
ghost use Rattle.analysis_spec.specs.declared.path.PathStep.TheVariants.{Then, Else};
ghost use Rattle.analysis_walk.specs.Found.{Finds, Covers, CoversNext, CoversWhen, CoversEachIf, CoversBehind, CoversUnless};
ghost use Rattle.analysis_walk.specs.LeftOut.{LeavesOut, IsLeftOut, IsLeftOutNext, IsLeftOutOfBoth, IsLeftOutOfWhen, IsLeftOutOfCases, IsLeftOutOfCase};

use crate::action::take_action;
use crate::conclusion::{Branches, Conclusion};
use crate::found::Found;
use crate::knowledge::Knowledge;
use crate::weight::{is_closed, largest, weight};
use analysis_spec::PathStep;
use contract::{Case, Contract, Memory, TryClone};
use std::alloc::Global;

/// Finds what may go wrong in a contract at a place, from what is known there, what parties are paid where it is closed,
/// and where no run comes. A branch is walked with a copy of what is known, but for the largest one, which comes last.
#[cycle(walk)]
pub(crate) fn walk<K: Knowledge>(
    alloc: Global,
    known: K::Known,
    contract: &Contract,
    place: &mut Vec<PathStep>,
    found: &mut Found,
) -> Result<(), Memory>
    ensures place { OnOk result (place.new.items ≡ place.old.items) }
    ensures found { OnOk result (Finds (Covers K.describes place.old.items known (contract_tree contract.now)) found.old found.new) }
    ensures unreached { OnOk result (LeavesOut (IsLeftOut K.describes place.old.items known (contract_tree contract.now)) found.old found.new) }
{
    match contract {
        Contract::Close => {
            let spans = K::close(alloc, &known)?;
            found.close(spans.as_slice())?;
            Ok(())
        }
        Contract::Pay(from, to, token, amount, then) => {
            let Conclusion { kinds, known } = K::pay(alloc, known, from, to, token, amount)?;
            found.raise(alloc, place, &kinds)?;
            go_on::<K>(alloc, known, then.get(), place, PathStep::Then, found)?;
            Ok(())
        }
        Contract::If(observation, then, otherwise) => {
            let Branches {
                kinds,
                if_true,
                if_false,
            } = K::observe(alloc, &known, observation)?;
            found.raise(alloc, place, &kinds)?;
            walk_both::<K>(
                alloc,
                if_true,
                then.get(),
                if_false,
                otherwise.get(),
                place,
                found,
            )?;
            Ok(())
        }
        Contract::When(cases, timeout, then) => {
            walk_when::<K>(
                alloc,
                known,
                cases.as_slice(),
                *timeout,
                then.get(),
                place,
                found,
            )?;
            Ok(())
        }
        Contract::Let(name, value, then) => {
            let Conclusion { kinds, known } = K::bind(alloc, known, name, value)?;
            found.raise(alloc, place, &kinds)?;
            go_on::<K>(alloc, known, then.get(), place, PathStep::Then, found)?;
            Ok(())
        }
        Contract::Assert(observation, then) => {
            let Conclusion { kinds, known } = K::assert(alloc, known, observation)?;
            found.raise(alloc, place, &kinds)?;
            go_on::<K>(alloc, known, then.get(), place, PathStep::Then, found)?;
            Ok(())
        }
    }
}

// Walks on one step from a place, or leaves out what is there, where nothing is known.
#[cycle(walk)]
fn go_on<K: Knowledge>(
    alloc: Global,
    known: Option<K::Known>,
    contract: &Contract,
    place: &mut Vec<PathStep>,
    step: PathStep,
    found: &mut Found,
) -> Result<(), Memory>
    ensures place { OnOk result (place.new.items ≡ place.old.items) }
    ensures found { OnOk result (Finds (CoversNext K.describes place.old.items step known contract.now) found.old found.new) }
    ensures unreached { OnOk result (LeavesOut (IsLeftOutNext K.describes place.old.items step known contract.now) found.old found.new) }
{
    let Some(there) = known else {
        found.leave_out(alloc, place, step)?;
        return Ok(());
    };
    place.push(step)?;
    walk::<K>(alloc, there, contract, place, found)?;
    let _ = place.pop();
    Ok(())
}

// Walks both branches of an If.
#[cycle(walk)]
fn walk_both<K: Knowledge>(
    alloc: Global,
    if_true: Option<K::Known>,
    then: &Contract,
    if_false: Option<K::Known>,
    otherwise: &Contract,
    place: &mut Vec<PathStep>,
    found: &mut Found,
) -> Result<(), Memory>
    ensures place { OnOk result (place.new.items ≡ place.old.items) }
    ensures then { OnOk result (Finds (CoversNext K.describes place.old.items Then if_true then.now) found.old found.new) }
    ensures otherwise { OnOk result (Finds (CoversNext K.describes place.old.items Else if_false otherwise.now) found.old found.new) }
    ensures unreached { OnOk result (LeavesOut (IsLeftOutOfBoth K.describes place.old.items if_true then.now if_false otherwise.now) found.old found.new) }
{
    if weight(then) <= weight(otherwise) {
        go_on::<K>(alloc, if_true, then, place, PathStep::Then, found)?;
        go_on::<K>(alloc, if_false, otherwise, place, PathStep::Else, found)?;
        Ok(())
    } else {
        go_on::<K>(alloc, if_false, otherwise, place, PathStep::Else, found)?;
        go_on::<K>(alloc, if_true, then, place, PathStep::Then, found)?;
        Ok(())
    }
}

// Walks the cases of a When and what it goes on with from its timeout on. Where that is Close, it is closed with all that
// is known before, so that nothing is copied.
#[cycle(walk)]
fn walk_when<K: Knowledge>(
    alloc: Global,
    known: K::Known,
    cases: &[Case],
    timeout: i64,
    then: &Contract,
    place: &mut Vec<PathStep>,
    found: &mut Found,
) -> Result<(), Memory>
    ensures place { OnOk result (place.new.items ≡ place.old.items) }
    ensures found { OnOk result (Finds (CoversWhen K.describes place.old.items known cases.now timeout then.now) found.old found.new) }
    ensures unreached { OnOk result (LeavesOut (IsLeftOutOfWhen K.describes place.old.items known cases.now timeout then.now) found.old found.new) }
{
    let known = K::later(known)?;
    let (last, size) = largest(cases);
    if is_closed(then) {
        let spans = K::close(alloc, &known)?;
        found.close(spans.as_slice())?;
        let waiting = K::wait(alloc, known, timeout)?;
        walk_cases::<K>(alloc, waiting, cases, last, place, found)?;
        Ok(())
    } else if size <= weight(then) {
        let waiting = K::wait(alloc, known.try_clone()?, timeout)?;
        walk_cases::<K>(alloc, waiting, cases, last, place, found)?;
        let over = K::time_out(alloc, known, timeout)?;
        go_on::<K>(
            alloc,
            over,
            then,
            place,
            PathStep::TimeoutContinuation,
            found,
        )?;
        Ok(())
    } else {
        let over = K::time_out(alloc, known.try_clone()?, timeout)?;
        go_on::<K>(
            alloc,
            over,
            then,
            place,
            PathStep::TimeoutContinuation,
            found,
        )?;
        let waiting = K::wait(alloc, known, timeout)?;
        walk_cases::<K>(alloc, waiting, cases, last, place, found)?;
        Ok(())
    }
}

// Walks the cases of a When, one of them last, or leaves out what follows each, where nothing is known.
#[cycle(walk)]
fn walk_cases<K: Knowledge>(
    alloc: Global,
    known: Option<K::Known>,
    cases: &[Case],
    last: usize,
    place: &mut Vec<PathStep>,
    found: &mut Found,
) -> Result<(), Memory>
    ensures place { OnOk result (place.new.items ≡ place.old.items) }
    ensures found { OnOk result (Finds (CoversEachIf K.describes place.old.items known cases.now) found.old found.new) }
    ensures unreached { OnOk result (LeavesOut (IsLeftOutOfCases K.describes place.old.items known cases.now) found.old found.new) }
{
    let Some(each) = known else {
        found.leave_out_cases(alloc, place, cases)?;
        return Ok(());
    };
    for index in 0..cases.len() {
        walk_copied::<K>(alloc, &each, cases, index, last, place, found)?;
    }
    if last >= cases.len() {
        return Ok(());
    }
    walk_case::<K>(alloc, each, &cases[..last], &cases[last], place, found)?;
    Ok(())
}

// Walks a case of a When with a copy of what is known, but for the one that comes last.
#[cycle(walk)]
fn walk_copied<K: Knowledge>(
    alloc: Global,
    known: &K::Known,
    cases: &[Case],
    index: usize,
    last: usize,
    place: &mut Vec<PathStep>,
    found: &mut Found,
) -> Result<(), Memory>
    requires { index < length cases.now }
    ensures place { OnOk result (place.new.items ≡ place.old.items) }
    ensures found { OnOk result (Finds (CoversUnless K.describes place.old.items known.now cases.now last index) found.old found.new) }
    ensures unreached { OnOk result (LeavesOut (IsLeftOutOfCases K.describes place.old.items (Some known.now) cases.now) found.old found.new) }
{
    if index == last {
        return Ok(());
    }
    let copy = known.try_clone()?;
    walk_case::<K>(alloc, copy, &cases[..index], &cases[index], place, found)?;
    Ok(())
}

// Walks a case of a When behind others.
#[cycle(walk)]
fn walk_case<K: Knowledge>(
    alloc: Global,
    known: K::Known,
    earlier: &[Case],
    case: &Case,
    place: &mut Vec<PathStep>,
    found: &mut Found,
) -> Result<(), Memory>
    ensures place { OnOk result (place.new.items ≡ place.old.items) }
    ensures found { OnOk result (Finds (CoversBehind K.describes place.old.items known earlier.now case.now) found.old found.new) }
    ensures unreached { OnOk result (LeavesOut (IsLeftOutOfCase K.describes place.old.items known earlier.now case.now) found.old found.new) }
{
    let index = earlier.len();
    let Conclusion { kinds, known } = take_action::<K>(alloc, known, earlier, &case.action)?;
    place.push(PathStep::Action(index))?;
    found.raise(alloc, place, &kinds)?;
    let _ = place.pop();
    go_on::<K>(
        alloc,
        known,
        &case.then,
        place,
        PathStep::Case(index),
        found,
    )?;
    Ok(())
}
