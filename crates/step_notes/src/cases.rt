//! What a contract waits for.
ghost use Rattle.std.specs.Prelude.{◌≡◌, ◌<◌, ◌++◌, length, OnOk, IfOk, codes, string_bytes};
ghost use Rattle.machine.specs.Evaluation.Path.{waits_for};
ghost use Rattle.machine.specs.Evaluation.Parts.{wait_tree};
ghost use Rattle.machine.specs.Table.Flat.{Has, a_cont, a_value, an_observation, value_tree, observation_tree, cont_tree};
ghost use Rattle.machine.specs.Evaluation.Parts.{StandsWait};
ghost use Rattle.next_inputs.specs.Opening.{waits_until};
ghost use Rattle.step_notes.specs.StepLines as told;
ghost use Rattle.step_notes.specs.StepLines.{case_line, case_lines, paid_line, leaving_line, deposit_line, notify_line, choice_start, choice_words, choice_line, last_line, until_line, waiting_lines};

use crate::words::{money_text, put_bounds};
use contract::{Bound, ChoiceId, Interval, Memory, Party, SemFault, State, Token};
use json_write_contracts::term_text;
use machine::evaluation::{Parts, Wait};
use machine::table::{Cont, Table};
use next_inputs::waits_until;
use std::alloc::Global;

fn paid_line(
    alloc: Global,
    account: &Party,
    party: &Party,
    token: &Token,
    amount: i128,
) -> Result<String, Memory>
    ensures { IfOk result (λ text. string_bytes text ≡ paid_line account.now party.now token.now amount) }
{
    let money = money_text(alloc, amount, token)?;
    let party = term_text(alloc, party)?;
    let account = term_text(alloc, account)?;
    format!(in alloc; "waits for deposit {money} by {party} into {account}\n")
}

fn leaving_line(alloc: Global, account: &Party, party: &Party) -> Result<String, Memory>
    ensures { IfOk result (λ text. string_bytes text ≡ leaving_line account.now party.now) }
{
    let party = term_text(alloc, party)?;
    let account = term_text(alloc, account)?;
    format!(in alloc; "waits for deposit by {party} into {account}: Leaves128\n")
}

// The line of a case that waits for a deposit of what a value came to.
fn deposit_line(
    alloc: Global,
    account: &Party,
    party: &Party,
    token: &Token,
    amount: Result<i128, SemFault>,
) -> Result<String, Memory>
    ensures { IfOk result (λ text. string_bytes text ≡ deposit_line account.now party.now token.now amount) }
{
    match amount {
        Ok(amount) => paid_line(alloc, account, party, token, amount),
        Err(_) => leaving_line(alloc, account, party),
    }
}

fn put_deposit(
    alloc: Global,
    out: &mut String,
    account: &Party,
    party: &Party,
    token: &Token,
    amount: Result<i128, SemFault>,
) -> Result<(), Memory>
    ensures { OnOk result (string_bytes out.new ≡ string_bytes out.old ++ deposit_line account.now party.now token.now amount) }
{
    let line = deposit_line(alloc, account, party, token, amount)?;
    out.push_str(line.as_str())
}

fn choice_start(alloc: Global, id: &ChoiceId) -> Result<String, Memory>
    ensures { IfOk result (λ text. string_bytes text ≡ choice_start id.now) }
{
    let name = term_text(alloc, &id.name)?;
    let owner = term_text(alloc, &id.owner)?;
    format!(in alloc; "waits for choose {name} of {owner}: ")
}

fn put_words(alloc: Global, out: &mut String, id: &ChoiceId, bounds: &[Bound]) -> Result<(), Memory>
    ensures { OnOk result (string_bytes out.new ≡ string_bytes out.old ++ choice_words id.now bounds.now) }
{
    let head = choice_start(alloc, id)?;
    out.push_str(head.as_str())?;
    put_bounds(out, bounds)
}

fn put_choice(
    alloc: Global,
    out: &mut String,
    id: &ChoiceId,
    bounds: &[Bound],
) -> Result<(), Memory>
    ensures { OnOk result (string_bytes out.new ≡ string_bytes out.old ++ choice_line id.now bounds.now) }
{
    put_words(alloc, out, id, bounds)?;
    out.push_str("\n")
}

// The line of a case that waits for a notify, where its observation is true.
fn put_notify(out: &mut String, truth: Result<bool, SemFault>) -> Result<(), Memory>
    ensures { OnOk result (string_bytes out.new ≡ string_bytes out.old ++ notify_line truth) }
{
    match truth {
        Ok(true) => out.push_str("waits for notify\n"),
        Ok(false) => Ok(()),
        Err(_) => out.push_str("waits for notify: Leaves128\n"),
    }
}

fn put_case(
    alloc: Global,
    out: &mut String,
    table: &Table,
    action: Wait<'_, u32, u32>,
    state: &State,
    interval: Interval,
) -> Result<(), Memory>
    requires { StandsWait (λ v. Has table.now (a_value v)) (λ o. Has table.now (an_observation o)) action }
    ensures { OnOk result (string_bytes out.new ≡ string_bytes out.old
        ++ case_line interval state.now (wait_tree (value_tree table.now) (observation_tree table.now) action.entry)) }
{
    match action {
        Wait::Deposit(account, party, token, value) => {
            let amount = Parts::value(table, value, state, interval);
            put_deposit(alloc, out, account, party, token, amount)
        }
        Wait::Choice(id, bounds) => put_choice(alloc, out, id, bounds),
        Wait::Notify(observation) => put_notify(
            out,
            Parts::holds(table, observation, state, interval),
        ),
    }
}

// A line for each case of the contract that a number of the table stands for.
fn put_cases(
    alloc: Global,
    out: &mut String,
    table: &Table,
    place: Cont,
    state: &State,
    interval: Interval,
) -> Result<(), Memory>
    requires { Has table.now (a_cont place.0) }
    ensures { OnOk result (string_bytes out.new ≡ string_bytes out.old
        ++ case_lines interval state.now (waits_for (cont_tree table.now place.0))) }
{
    for index in 0..table.count_cases(place) {
        let case = table.case(place, index);
        put_case(alloc, out, table, case.action, state, interval)?;
    }
    Ok(())
}

fn last_line(alloc: Global, last: i128) -> Result<String, Memory>
    ensures { IfOk result (λ text. string_bytes text ≡ last_line last) }
{
    format!(in alloc; "waits until {last}\n")
}

// Until when it waits, or that it is closed.
fn until_line(alloc: Global, until: Option<i128>) -> Result<String, Memory>
    ensures { IfOk result (λ text. string_bytes text ≡ until_line until) }
{
    match until {
        Some(last) => last_line(alloc, last),
        None => String::from_str(alloc, "closed\n"),
    }
}

/// Puts at the end of a text what the contract waits for that a number of the table stands for, in a state, over an interval.
pub(crate) fn put_waiting(
    alloc: Global,
    out: &mut String,
    table: &Table,
    place: Cont,
    state: &State,
    interval: Interval,
) -> Result<(), Memory>
    requires { Has table.now (a_cont place.0) }
    ensures { OnOk result (string_bytes out.new ≡ string_bytes out.old
        ++ waiting_lines interval state.now (cont_tree table.now place.0)) }
{
    put_cases(alloc, out, table, place, state, interval)?;
    let until = until_line(alloc, waits_until(table, place))?;
    out.push_str(until.as_str())
}
