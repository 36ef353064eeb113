//! The walk over a contract.
ghost use Rattle.std.specs.Prelude.{◌≡◌, ◌<◌, length, true, OnOk};
ghost use Rattle.contract.specs.Tree.{contract_tree, close};
ghost use Rattle.loss_walk.specs.Floors.{Finds, IsCovered, CoversNext, CoversBoth, CoversWhen, CoversEachIf, CoversIndex, CoversBehind};

use crate::brings::take_action;
use crate::floor::Floor;
use crate::question::Question;
use crate::quiet::Quiet;
use crate::rows::{note, put_close};
use crate::timeless::{holds_timeless, is_timeless};
use analysis_steps::{assert, bind, branch, later, pay, time_out, wait};
use analysis_values::Known;
use analysis_walk::{Branches, Conclusion};
use contract::{Account, Case, Contract, Entries, Memory, TryClone};
use std::alloc::Global;

// Whether a contract is Close.
fn is_closed(contract: &Contract) -> bool
    ensures { result ≡ true → contract_tree contract.now ≡ close }
{
    matches!(contract, Contract::Close)
}

/// Finds floors for what parties are paid, less what they bring where that is asked, wherever a contract is closed, from what is
/// known. A When that would let a party down that keeps up isn't left by its timeout.
#[cycle(walk)]
pub(crate) fn walk(
    alloc: Global,
    question: &Question,
    quiet: Quiet,
    known: Known,
    contract: &Contract,
    rows: &mut Entries<Account, Floor>,
) -> Result<(), Memory>
    ensures { OnOk result (Finds question.now.asked (IsCovered question.now quiet known (contract_tree contract.now)) rows.old rows.new) }
{
    match contract {
        Contract::Close => {
            put_close(rows, &known, question.asked.as_slice())?;
            Ok(())
        }
        Contract::Pay(from, to, token, amount, then) => {
            let next = quiet.reading(is_timeless(amount));
            let Conclusion { kinds: _, known } = pay(alloc, known, from, to, token, amount)?;
            go_on(alloc, question, next, known, then.get(), rows)?;
            Ok(())
        }
        Contract::If(observation, then, otherwise) => {
            let next = quiet.reading(holds_timeless(observation));
            let Branches {
                kinds: _,
                if_true,
                if_false,
            } = branch(alloc, &known, observation)?;
            walk_both(
                alloc,
                question,
                next,
                if_true,
                then.get(),
                if_false,
                otherwise.get(),
                rows,
            )?;
            Ok(())
        }
        Contract::When(cases, timeout, then) => {
            walk_when(
                alloc,
                question,
                quiet,
                known,
                cases.as_slice(),
                *timeout,
                then.get(),
                rows,
            )?;
            Ok(())
        }
        Contract::Let(name, value, then) => {
            let next = quiet.reading(is_timeless(value));
            let Conclusion { kinds: _, known } = bind(alloc, known, name, value)?;
            go_on(alloc, question, next, known, then.get(), rows)?;
            Ok(())
        }
        Contract::Assert(observation, then) => {
            let Conclusion { kinds: _, known } = assert(alloc, known, observation)?;
            go_on(alloc, question, quiet, known, then.get(), rows)?;
            Ok(())
        }
    }
}

// Walks on, where something is known.
#[cycle(walk)]
fn go_on(
    alloc: Global,
    question: &Question,
    quiet: Quiet,
    known: Option<Known>,
    contract: &Contract,
    rows: &mut Entries<Account, Floor>,
) -> Result<(), Memory>
    ensures { OnOk result (Finds question.now.asked (CoversNext question.now quiet known contract.now) rows.old rows.new) }
{
    let Some(there) = known else {
        return Ok(());
    };
    walk(alloc, question, quiet, there, contract, rows)?;
    Ok(())
}

// Walks both branches of an If.
#[cycle(walk)]
fn walk_both(
    alloc: Global,
    question: &Question,
    quiet: Quiet,
    if_true: Option<Known>,
    then: &Contract,
    if_false: Option<Known>,
    otherwise: &Contract,
    rows: &mut Entries<Account, Floor>,
) -> Result<(), Memory>
    ensures { OnOk result (Finds question.now.asked (CoversBoth question.now quiet if_true then.now if_false otherwise.now) rows.old rows.new) }
{
    go_on(alloc, question, quiet, if_true, then, rows)?;
    go_on(alloc, question, quiet, if_false, otherwise, rows)?;
    Ok(())
}

// Walks the cases of a When and, unless that is cut, what it goes on with from its timeout on. Where that is Close, it is closed
// with all that is known before, so that nothing is copied.
#[cycle(walk)]
fn walk_when(
    alloc: Global,
    question: &Question,
    quiet: Quiet,
    known: Known,
    cases: &[Case],
    timeout: i64,
    then: &Contract,
    rows: &mut Entries<Account, Floor>,
) -> Result<(), Memory>
    ensures { OnOk result (Finds question.now.asked (CoversWhen question.now quiet known cases.now timeout then.now) rows.old rows.new) }
{
    let known = later(known)?;
    if quiet.cuts(question, cases, timeout) {
        let waiting = wait(alloc, known, timeout)?;
        walk_cases(
            alloc,
            question,
            Quiet::behind_input(timeout),
            waiting,
            cases,
            rows,
        )?;
        Ok(())
    } else if is_closed(then) {
        put_close(rows, &known, question.asked.as_slice())?;
        let waiting = wait(alloc, known, timeout)?;
        walk_cases(
            alloc,
            question,
            Quiet::behind_input(timeout),
            waiting,
            cases,
            rows,
        )?;
        Ok(())
    } else {
        let over = time_out(alloc, known.try_clone()?, timeout)?;
        go_on(alloc, question, quiet.timed_out(timeout), over, then, rows)?;
        let waiting = wait(alloc, known, timeout)?;
        walk_cases(
            alloc,
            question,
            Quiet::behind_input(timeout),
            waiting,
            cases,
            rows,
        )?;
        Ok(())
    }
}

// Walks the cases of a When, where something is known: the last one with what is known there, and not with a copy of it.
#[cycle(walk)]
fn walk_cases(
    alloc: Global,
    question: &Question,
    quiet: Quiet,
    known: Option<Known>,
    cases: &[Case],
    rows: &mut Entries<Account, Floor>,
) -> Result<(), Memory>
    ensures { OnOk result (Finds question.now.asked (CoversEachIf question.now quiet known cases.now) rows.old rows.new) }
{
    let Some(each) = known else {
        return Ok(());
    };
    let count = cases.len();
    if count == 0 {
        return Ok(());
    }
    let last = count - 1;
    for index in 0..last {
        walk_copied(alloc, question, quiet, &each, cases, index, rows)?;
    }
    walk_case(
        alloc,
        question,
        quiet,
        each,
        &cases[..last],
        &cases[last],
        rows,
    )?;
    Ok(())
}

// Walks a case of a When with a copy of what is known.
#[cycle(walk)]
fn walk_copied(
    alloc: Global,
    question: &Question,
    quiet: Quiet,
    known: &Known,
    cases: &[Case],
    index: usize,
    rows: &mut Entries<Account, Floor>,
) -> Result<(), Memory>
    requires { index < length cases.now }
    ensures { OnOk result (Finds question.now.asked (CoversIndex question.now quiet known.now cases.now index) rows.old rows.new) }
{
    let copy = known.try_clone()?;
    walk_case(
        alloc,
        question,
        quiet,
        copy,
        &cases[..index],
        &cases[index],
        rows,
    )?;
    Ok(())
}

// Walks a case of a When behind others.
#[cycle(walk)]
fn walk_case(
    alloc: Global,
    question: &Question,
    quiet: Quiet,
    known: Known,
    earlier: &[Case],
    case: &Case,
    rows: &mut Entries<Account, Floor>,
) -> Result<(), Memory>
    ensures { OnOk result (Finds question.now.asked (CoversBehind question.now quiet known earlier.now case.now) rows.old rows.new) }
{
    let there = take_action(alloc, question.net, known, earlier, &case.action)?;
    note(rows, &case.action, there.is_some())?;
    go_on(alloc, question, quiet, there, &case.then, rows)?;
    Ok(())
}
