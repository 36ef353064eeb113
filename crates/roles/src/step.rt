//! Steps.
ghost use Rattle.std.specs.Prelude.{◌≡◌, IfOk};
ghost use Rattle.eutxo.specs.Machine.declared.datum.Datum.{Datum};
ghost use Rattle.eutxo.specs.Asked.{Stepping};
ghost use Rattle.roles.specs.Terms.{terms_of};
ghost use Rattle.roles.specs.Steps.{payments_from, outcome_fault, outcome_answer, step_of};

use crate::authorise::unauthorised;
use crate::owing::{due_count, goes_on_in, unpaid_index};
use crate::published::Published;
use contract::{Bytes, Input, Memory, Outcome, SemFault, TryClone};
use eutxo::{Cont, Datum, Spent, StepAnswer, StepFault, Tx, compute};
use std::alloc::{AllocError, Global};

// What is asked about a step, but for what the transaction spends.
#[derive(Clone, Copy)]
pub struct StepParts<'a> {
    pub script: &'a [u8; 32],
    pub datum: &'a Datum,
    pub inputs: &'a [Input],
    pub from: usize,
    pub tx: &'a Tx,
}

// Where the payments begin. `Memory` where that is above every place that an output can have.
fn payments_from(closed: bool, from: usize) -> Result<usize, Memory>
    ensures { IfOk result (λ place. place ≡ payments_from closed from) }
{
    if closed {
        return Ok(from);
    }
    match from.checked_add(1) {
        Some(place) => Ok(place),
        None => Err(AllocError),
    }
}

// Once the transaction function succeeds: who isn't authorised, then the continuing output, then the payments.
fn outcome_fault(
    alloc: Global,
    currency: &Bytes,
    asked: StepParts<'_>,
    spent: &[Spent<'_>],
    closed: bool,
    outcome: &Outcome<Cont>,
) -> Result<Option<StepFault>, Memory>
    ensures { let next : Datum = record { cont = outcome.now.place; state = outcome.now.state } in
        let step : Stepping = record {
          script = asked.entry.script.now;
          datum = asked.entry.datum.now;
          inputs = asked.entry.inputs.now;
          from = asked.entry.from;
          tx = asked.entry.tx.now;
          spent = spent.now;
        } in
        IfOk result (λ fault. fault ≡ outcome_fault currency.now closed next outcome.now.payments step) }
{
    let tx = asked.tx;
    let outputs = tx.outputs.as_slice();
    if let Some(party) = unauthorised(currency, tx.signers.as_slice(), spent, asked.inputs) {
        return Ok(Some(StepFault::NotAuthorised(party.try_clone()?)));
    }
    if !closed
        && !goes_on_in(
            alloc,
            tx,
            asked.from,
            asked.script,
            outcome.place,
            &outcome.state,
        )?
    {
        return Ok(Some(StepFault::WrongContinuation));
    }
    let from = payments_from(closed, asked.from)?;
    match unpaid_index(currency, from, outcome.payments.as_slice(), outputs) {
        Some(i) => Ok(Some(StepFault::WrongPayment(i as u64))),
        None => Ok(None),
    }
}

fn outcome_answer(
    alloc: Global,
    currency: &Bytes,
    asked: StepParts<'_>,
    spent: &[Spent<'_>],
    closed: bool,
    outcome: &Outcome<Cont>,
) -> Result<StepAnswer, Memory>
    ensures { let next : Datum = record { cont = outcome.now.place; state = outcome.now.state } in
        let step : Stepping = record {
          script = asked.entry.script.now;
          datum = asked.entry.datum.now;
          inputs = asked.entry.inputs.now;
          from = asked.entry.from;
          tx = asked.entry.tx.now;
          spent = spent.now;
        } in
        IfOk result (λ answer. answer ≡ outcome_answer currency.now closed next outcome.now.payments step) }
{
    let fault = outcome_fault(alloc, currency, asked, spent, closed, outcome)?;
    Ok(StepAnswer::Takes {
        fault,
        goes_on: !closed,
        payments: due_count(outcome.payments.as_slice()),
    })
}

/// Judges a step of a published contract: the transaction function on the contract of the datum's
/// number, then who is authorised, then the continuing output, then the payments. Answers `Memory` only where a
/// growth was refused, or where the payments would begin above every place that an output can have.
pub fn step_of(
    alloc: Global,
    published: &Published,
    asked: StepParts<'_>,
    spent: &[Spent<'_>],
) -> Result<StepAnswer, Memory>
    ensures { let step : Stepping = record {
      script = asked.entry.script.now;
      datum = asked.entry.datum.now;
      inputs = asked.entry.inputs.now;
      from = asked.entry.from;
      tx = asked.entry.tx.now;
      spent = spent.now;
    } in
        IfOk result (λ answer. answer ≡ step_of (terms_of published.now) step) }
{
    let table = &published.table;
    let datum = asked.datum;
    if !table.contains(datum.cont) {
        return Ok(StepAnswer::Refused(SemFault::NoMatch));
    }
    match compute(alloc, table, datum, asked.tx.interval, asked.inputs) {
        Ok(outcome) => {
            let closed = table.is_close(outcome.place);
            outcome_answer(alloc, &published.currency, asked, spent, closed, &outcome)
        }
        Err(SemFault::Memory) => Err(AllocError),
        Err(fault) => Ok(StepAnswer::Refused(fault)),
    }
}
