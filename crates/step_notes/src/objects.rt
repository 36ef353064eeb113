//! What is told of an accepted step, as the rest of an object.
ghost use Rattle.std.specs.Prelude.{◌≡◌, ◌++◌, IfOk, OnOk, codes, string_bytes};
ghost use Rattle.machine.specs.Evaluation.Parts.{StandsWait, wait_tree};
ghost use Rattle.machine.specs.Evaluation.Path.{waits_for};
ghost use Rattle.json_write_outcomes.specs.WrittenOutcome.{payment_json, warning_json};
ghost use Rattle.serde_json.specs.Written.{compact_text};
ghost use Rattle.machine.specs.Table.Flat.{Has, a_cont, a_value, an_observation, cont_tree, observation_tree, value_tree};
ghost use Rattle.step_notes.specs.StepObjects as told;
ghost use Rattle.step_notes.specs.StepObjects.{comma, number_text, payment_objects, warning_objects, amount_text, truth_text, deposit_object, bound_object, bound_objects, choice_head, choice_object, notify_object, case_object, case_objects, until_text, waiting_members, done_members};

use crate::terms::{OfPayment, OfWarning};
use contract::{
    Bound, ChoiceId, Interval, Memory, Outcome, Party, Payment, SemFault, State, Token, Warning,
};
use json_write_contracts::term_text;
use machine::evaluation::{Parts, Wait};
use machine::table::{Cont, Table};
use next_inputs::waits_until;
use std::alloc::Global;
use std::fmt::Write;

/// A comma before each item of a list but the first, by its index.
pub fn comma(index: usize) -> &'static str
    ensures { result.now ≡ comma index }
{
    if index == 0 { "" } else { "," }
}

// ---- what it did

fn put_payment(
    alloc: Global,
    out: &mut String,
    index: usize,
    payment: &Payment,
) -> Result<(), Memory>
    ensures { OnOk result (string_bytes out.new ≡ string_bytes out.old ++ (comma index ++ compact_text (payment_json payment.now))) }
{
    let comma = comma(index);
    let object = term_text(alloc, &OfPayment(payment))?;
    write!(out, "{comma}{object}")
}

fn put_payments(alloc: Global, out: &mut String, payments: &[Payment]) -> Result<(), Memory>
    ensures { OnOk result (string_bytes out.new ≡ string_bytes out.old ++ payment_objects 0 payments.now) }
{
    for (index, payment) in payments.iter().enumerate() {
        put_payment(alloc, out, index, payment)?;
    }
    Ok(())
}

fn put_warning(
    alloc: Global,
    out: &mut String,
    index: usize,
    warning: &Warning,
) -> Result<(), Memory>
    ensures { OnOk result (string_bytes out.new ≡ string_bytes out.old ++ (comma index ++ compact_text (warning_json warning.now))) }
{
    let comma = comma(index);
    let object = term_text(alloc, &OfWarning(warning))?;
    write!(out, "{comma}{object}")
}

fn put_warnings(alloc: Global, out: &mut String, warnings: &[Warning]) -> Result<(), Memory>
    ensures { OnOk result (string_bytes out.new ≡ string_bytes out.old ++ warning_objects 0 warnings.now) }
{
    for (index, warning) in warnings.iter().enumerate() {
        put_warning(alloc, out, index, warning)?;
    }
    Ok(())
}

// ---- what the contract waits for

fn amount_text(alloc: Global, amount: Result<i128, SemFault>) -> Result<String, Memory>
    ensures { IfOk result (λ text. string_bytes text ≡ amount_text amount) }
{
    match amount {
        Ok(amount) => term_text(alloc, &amount),
        Err(_) => String::from_str(alloc, "null"),
    }
}

fn truth_text(truth: Result<bool, SemFault>) -> &'static str
    ensures { result.now ≡ truth_text truth }
{
    match truth {
        Ok(true) => "true",
        Ok(false) => "false",
        Err(_) => "null",
    }
}

fn deposit_object(
    alloc: Global,
    account: &Party,
    party: &Party,
    token: &Token,
    amount: Result<i128, SemFault>,
) -> Result<String, Memory>
    ensures { IfOk result (λ text. string_bytes text ≡ deposit_object account.now party.now token.now amount) }
{
    let amount = amount_text(alloc, amount)?;
    let token = term_text(alloc, token)?;
    let party = term_text(alloc, party)?;
    let account = term_text(alloc, account)?;
    format!(in alloc;
        "{{\"deposit\":{amount},\"token\":{token},\"by\":{party},\"into\":{account}}}"
    )
}

fn put_bound(alloc: Global, out: &mut String, index: usize, bound: Bound) -> Result<(), Memory>
    ensures { OnOk result (string_bytes out.new ≡ string_bytes out.old ++ (comma index ++ bound_object bound)) }
{
    let comma = comma(index);
    let from = term_text(alloc, &bound.from)?;
    let to = term_text(alloc, &bound.to)?;
    write!(out, "{comma}{{\"from\":{from},\"to\":{to}}}")
}

fn put_bounds(alloc: Global, out: &mut String, bounds: &[Bound]) -> Result<(), Memory>
    ensures { OnOk result (string_bytes out.new ≡ string_bytes out.old ++ bound_objects 0 bounds.now) }
{
    for (index, bound) in bounds.iter().enumerate() {
        put_bound(alloc, out, index, *bound)?;
    }
    Ok(())
}

fn choice_head(alloc: Global, id: &ChoiceId) -> Result<String, Memory>
    ensures { IfOk result (λ text. string_bytes text ≡ choice_head id.now) }
{
    let name = term_text(alloc, &id.name)?;
    let owner = term_text(alloc, &id.owner)?;
    format!(in alloc; "{{\"choose\":{name},\"of\":{owner},\"bounds\":[")
}

fn choice_object(alloc: Global, id: &ChoiceId, bounds: &[Bound]) -> Result<String, Memory>
    ensures { IfOk result (λ text. string_bytes text ≡ choice_object id.now bounds.now) }
{
    let mut out = choice_head(alloc, id)?;
    put_bounds(alloc, &mut out, bounds)?;
    out.push_str("]}")?;
    Ok(out)
}

fn notify_object(alloc: Global, truth: Result<bool, SemFault>) -> Result<String, Memory>
    ensures { IfOk result (λ text. string_bytes text ≡ notify_object truth) }
{
    let truth = truth_text(truth);
    format!(in alloc; "{{\"notify\":{truth}}}")
}

fn case_object(
    alloc: Global,
    table: &Table,
    action: Wait<'_, u32, u32>,
    state: &State,
    interval: Interval,
) -> Result<String, Memory>
    requires { StandsWait (λ v. Has table.now (a_value v)) (λ o. Has table.now (an_observation o)) action }
    ensures { IfOk result (λ text. string_bytes text
        ≡ case_object interval state.now (wait_tree (value_tree table.now) (observation_tree table.now) action.entry)) }
{
    match action {
        Wait::Deposit(account, party, token, value) => {
            let amount = Parts::value(table, value, state, interval);
            deposit_object(alloc, account, party, token, amount)
        }
        Wait::Choice(id, bounds) => choice_object(alloc, id, bounds),
        Wait::Notify(observation) => notify_object(
            alloc,
            Parts::holds(table, observation, state, interval),
        ),
    }
}

fn put_case(
    alloc: Global,
    out: &mut String,
    index: usize,
    table: &Table,
    action: Wait<'_, u32, u32>,
    state: &State,
    interval: Interval,
) -> Result<(), Memory>
    requires { StandsWait (λ v. Has table.now (a_value v)) (λ o. Has table.now (an_observation o)) action }
    ensures { OnOk result (string_bytes out.new ≡ string_bytes out.old
        ++ (comma index ++ case_object interval state.now (wait_tree (value_tree table.now) (observation_tree table.now) action.entry))) }
{
    let comma = comma(index);
    let object = case_object(alloc, table, action, state, interval)?;
    write!(out, "{comma}{object}")
}

// An object for each case of the contract that a number of the table stands for.
fn put_cases(
    alloc: Global,
    out: &mut String,
    table: &Table,
    place: Cont,
    state: &State,
    interval: Interval,
) -> Result<(), Memory>
    requires { Has table.now (a_cont place.0) }
    ensures { OnOk result (string_bytes out.new ≡ string_bytes out.old
        ++ case_objects interval state.now 0 (waits_for (cont_tree table.now place.0))) }
{
    for index in 0..table.count_cases(place) {
        let case = table.case(place, index);
        put_case(alloc, out, index, table, case.action, state, interval)?;
    }
    Ok(())
}

fn until_text(alloc: Global, until: Option<i128>) -> Result<String, Memory>
    ensures { IfOk result (λ text. string_bytes text ≡ until_text until) }
{
    match until {
        Some(last) => term_text(alloc, &last),
        None => String::from_str(alloc, "null"),
    }
}

// What the contract waits for, to the end of the object.
fn put_waiting(
    alloc: Global,
    out: &mut String,
    table: &Table,
    place: Cont,
    state: &State,
    interval: Interval,
) -> Result<(), Memory>
    requires { Has table.now (a_cont place.0) }
    ensures { OnOk result (string_bytes out.new ≡ string_bytes out.old ++ waiting_members interval state.now (cont_tree table.now place.0)) }
{
    out.push_str("\"waits_for\":[")?;
    put_cases(alloc, out, table, place, state, interval)?;
    let until = until_text(alloc, waits_until(table, place))?;
    write!(out, "],\"waits_until\":{until}}}\n")
}

// What it did.
fn put_done(
    alloc: Global,
    out: &mut String,
    payments: &[Payment],
    warnings: &[Warning],
) -> Result<(), Memory>
    ensures { OnOk result (string_bytes out.new ≡ string_bytes out.old ++ done_members payments.now warnings.now) }
{
    out.push_str("\"payments\":[")?;
    put_payments(alloc, out, payments)?;
    out.push_str("],\"warnings\":[")?;
    put_warnings(alloc, out, warnings)?;
    out.push_str("],")
}

/// The members of what a step left behind a head that begins the object, to its end and a line feed.
pub(crate) fn outcome_object(
    alloc: Global,
    head: &str,
    table: &Table,
    outcome: &Outcome<Cont>,
    interval: Interval,
) -> Result<String, Memory>
    requires { Has table.now (a_cont outcome.now.place.0) }
    ensures { IfOk result (λ text. string_bytes text ≡ head.now ++ told.outcome_members outcome.now.payments outcome.now.warnings
        interval outcome.now.state (cont_tree table.now outcome.now.place.0)) }
{
    let mut out = String::from_str(alloc, head)?;
    let payments = outcome.payments.as_slice();
    put_done(alloc, &mut out, payments, outcome.warnings.as_slice())?;
    put_waiting(
        alloc,
        &mut out,
        table,
        outcome.place,
        &outcome.state,
        interval,
    )?;
    Ok(out)
}
