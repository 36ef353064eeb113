//! The steps of a thread as they are printed.
use crate::shown::state_word;
use chain::StepRecord;
use contract::{Input, Items, Memory, Payment, TryClone, Warning};
use contract_json::fitting_to_json;
use rows_text::{RowFault, called, put_beside, put_copies, put_words};
use std::alloc::{AllocError, Global};

/// What was recorded of a step. Dropped once: who owns it is generic in it, so that no proof walks through its drop.
pub trait Recorded: Drop {
    fn put(&self, alloc: Global, lines: &mut String) -> Result<(), AllocError>;
}

/// The number of the steps, and below it some lines for each.
pub fn steps_lines<T: Recorded>(
    alloc: Global,
    steps: Result<Items<T>, Memory>,
) -> Result<String, RowFault> {
    let steps = called(steps)?;
    let mut lines = format!(in alloc; "steps {}", steps.len())?;
    for step in steps.as_slice() {
        step.put(alloc, &mut lines)?;
    }
    Ok(lines)
}

/// Whether a copy of each record is the same, and whether each record is the same as the one before it.
pub fn record_copies<T: TryClone + PartialEq + Drop>(
    alloc: Global,
    steps: Result<Items<T>, Memory>,
) -> Result<String, RowFault> {
    let steps = called(steps)?;
    let mut lines = String::from_str(alloc, "records")?;
    put_copies(&mut lines, steps.as_slice())?;
    lines.push_str("\nrecords")?;
    put_beside(&mut lines, steps.as_slice())?;
    Ok(lines)
}

impl Recorded for StepRecord {
    fn put(&self, alloc: Global, lines: &mut String) -> Result<(), AllocError> {
        let (from, to) = (self.interval.from, self.interval.to);
        put_words(
            lines,
            format!(in alloc; "\n from {from} to {to} number {}", self.number.0),
        )?;
        put_inputs(alloc, lines, self.inputs.as_slice())?;
        put_warnings(alloc, lines, self.warnings.as_slice())?;
        put_payments(alloc, lines, self.payments.as_slice())?;
        put_line(lines, "state", state_word(alloc, &self.state))
    }
}

fn put_line(
    lines: &mut String,
    sort: &str,
    words: Result<String, AllocError>,
) -> Result<(), AllocError> {
    let words = words?;
    lines.push_str("\n ")?;
    lines.push_str(sort)?;
    lines.push(' ')?;
    lines.push_str(words.as_str())
}

fn put_inputs(alloc: Global, lines: &mut String, inputs: &[Input]) -> Result<(), AllocError> {
    for input in inputs {
        put_line(lines, "input", input_words(alloc, input))?;
    }
    Ok(())
}

fn input_words(alloc: Global, input: &Input) -> Result<String, AllocError> {
    match input {
        Input::Deposit(_, _, _, amount) => format!(in alloc; "deposit {amount}"),
        Input::Choice(_, number) => format!(in alloc; "choice {number}"),
        Input::Notify => String::from_str(alloc, "notify"),
    }
}

fn put_warnings(alloc: Global, lines: &mut String, warnings: &[Warning]) -> Result<(), AllocError> {
    for warning in warnings {
        put_line(lines, "warning", warning_words(alloc, warning))?;
    }
    Ok(())
}

fn warning_words(alloc: Global, warning: &Warning) -> Result<String, AllocError> {
    fitting_to_json(alloc, warning)?.to_string(alloc)
}

fn payment_words(alloc: Global, payment: &Payment) -> Result<String, AllocError> {
    fitting_to_json(alloc, payment)?.to_string(alloc)
}

fn put_payments(alloc: Global, lines: &mut String, payments: &[Payment]) -> Result<(), AllocError> {
    for payment in payments {
        put_line(lines, "payment", payment_words(alloc, payment))?;
    }
    Ok(())
}
