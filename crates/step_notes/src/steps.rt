//! Steps.
ghost use Rattle.std.specs.Prelude.{◌≡◌, ◌++◌, IfOk, OnOk, string_bytes};
ghost use Rattle.machine.specs.Table.Flat.{Has, a_cont, cont_tree};
ghost use Rattle.step_notes.specs.StepLines.{payment_line, payment_lines, warning_line, warning_lines, outcome_lines};
ghost use Rattle.step_notes.specs.Steps as told;
ghost use Rattle.step_notes.specs.Steps.{moment};

use crate::cases::put_waiting;
use crate::indent::headed;
use crate::objects::outcome_object;
use crate::spelling::Spelling;
use crate::words::payment_text;
use contract::{Input, Interval, Memory, Outcome, Payment, SemFault, State, Warning};
use machine::table::{Cont, Table};
use machine::{Datum, compute};
use places::warning_name;
use std::alloc::{AllocError, Global};
use std::fmt::Write;

/// A step, by what its builder was shown and what it brought.
#[derive(Clone, Copy)]
pub struct Step<'a> {
    /// The table of the contract.
    pub table: &'a Table,
    /// The datum from which the step went.
    pub datum: &'a Datum,
    /// The inputs that the step gave to the contract, in order.
    pub inputs: &'a [Input],
    /// The times at which its transaction could be accepted, in POSIX milliseconds.
    pub interval: Interval,
    /// The tick over which is told what the contract waits for.
    pub tick: i64,
}

fn put_payment(alloc: Global, out: &mut String, payment: &Payment) -> Result<(), Memory>
    ensures { OnOk result (string_bytes out.new ≡ string_bytes out.old ++ payment_line payment.now) }
{
    let text = payment_text(alloc, payment)?;
    write!(out, "pays {text}\n")
}

fn put_payments(alloc: Global, out: &mut String, payments: &[Payment]) -> Result<(), Memory>
    ensures { OnOk result (string_bytes out.new ≡ string_bytes out.old ++ payment_lines payments.now) }
{
    for payment in payments {
        put_payment(alloc, out, payment)?;
    }
    Ok(())
}

fn put_warning(out: &mut String, warning: &Warning) -> Result<(), Memory>
    ensures { OnOk result (string_bytes out.new ≡ string_bytes out.old ++ warning_line warning.now) }
{
    let name = warning_name(warning);
    write!(out, "warns {name}\n")
}

fn put_warnings(out: &mut String, warnings: &[Warning]) -> Result<(), Memory>
    ensures { OnOk result (string_bytes out.new ≡ string_bytes out.old ++ warning_lines warnings.now) }
{
    for warning in warnings {
        put_warning(out, warning)?;
    }
    Ok(())
}

// The tick alone, or the minimum time where that is later.
fn moment(tick: i64, state: &State) -> Interval
    ensures { result ≡ moment tick state.now }
{
    let at = tick.max(state.min_time());
    Interval { from: at, to: at }
}

// The lines of what a step left.
fn outcome_text(
    alloc: Global,
    table: &Table,
    outcome: &Outcome<Cont>,
    interval: Interval,
) -> Result<String, Memory>
    requires { Has table.now (a_cont outcome.now.place.0) }
    ensures { IfOk result (λ text. string_bytes text ≡ outcome_lines outcome.now.payments outcome.now.warnings interval
        outcome.now.state (cont_tree table.now outcome.now.place.0)) }
{
    let mut out = String::new(alloc);
    put_payments(alloc, &mut out, outcome.payments.as_slice())?;
    put_warnings(&mut out, outcome.warnings.as_slice())?;
    let state = &outcome.state;
    put_waiting(alloc, &mut out, table, outcome.place, state, interval)?;
    Ok(out)
}

// What is told of what a step left.
fn spelled(
    alloc: Global,
    spelling: Spelling,
    head: &str,
    table: &Table,
    outcome: &Outcome<Cont>,
    tick: i64,
) -> Result<String, Memory>
    requires { Has table.now (a_cont outcome.now.place.0) }
    ensures { IfOk result (λ text. string_bytes text ≡ told.outcome_text spelling head.now (moment tick outcome.now.state)
        outcome.now.payments outcome.now.warnings outcome.now.state (cont_tree table.now outcome.now.place.0)) }
{
    let interval = moment(tick, &outcome.state);
    match spelling {
        Spelling::Lines => {
            let lines = outcome_text(alloc, table, outcome, interval)?;
            headed(alloc, head, lines.as_str())
        }
        Spelling::Objects => outcome_object(alloc, head, table, outcome, interval),
    }
}

/// What an accepted step paid, in order, what it warned of, what its contract waits for now and until when, or that it is closed: a line
/// each behind a head; or the members of an object that a head begins, to its end and a line feed. The amounts of deposits are those over
/// the step's tick. Where the table doesn't have the datum's contract, or the transaction function refuses the step, nothing is told.
/// Answers `Memory` only where a growth was refused.
#[tactic(auto, using(crate::proofs::CasesLemmas::left_of))]
pub fn step_text(
    alloc: Global,
    spelling: Spelling,
    head: &str,
    step: &Step<'_>,
) -> Result<String, Memory>
    ensures { IfOk result (λ text. string_bytes text
        ≡ told.step_text spelling head.now step.now.tick step.now.interval step.now.table.now step.now.datum.now step.now.inputs.now) }
{
    let Step {
        table,
        datum,
        inputs,
        interval,
        tick,
    } = *step;
    if !table.contains(datum.cont) {
        return Ok(String::new(alloc));
    }
    match compute(alloc, table, datum, interval, inputs) {
        Ok(outcome) => spelled(alloc, spelling, head, table, &outcome, tick),
        Err(SemFault::Memory) => Err(AllocError),
        Err(_) => Ok(String::new(alloc)),
    }
}
