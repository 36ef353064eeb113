//! What can be done next, as `next` prints it as JSON.
ghost use Rattle.contract.specs.Collections.Answers.{Aside};
ghost use Rattle.contract.specs.Tree.{contract_tree};
ghost use Rattle.json_tree.specs.View.{view};
ghost use Rattle.request_reasons.specs.MarloweNext.Question.{reached_by};
ghost use Rattle.request_reasons.specs.RequestParts.PartsSupport.{AllFit};
ghost use Rattle.request_answers.specs.Asking.{NextPrints, TellsNext, TellsNextBehind, TellsNextFrom, TellsNextOf, asked_at};
ghost use Rattle.request_answers.specs.AskingSupport.{Told};

use contract::{Contract, State, Transaction};
use json_tree::Json;
use marlowe_trace::{Readable, beside_dropped};
use request_reasons::{
    Asked, Definitions, Part, Refusal, contract_at, next_after, state_at, time_at, transactions_at,
    without_feed,
};
use std::alloc::Global;

// What can be done next, as JSON.
#[tactic(auto, using(crate::proofs::AskingLemmas::part_steps))]
pub(crate) fn next(
    alloc: Global,
    readable: Readable,
    definitions: &Definitions,
    body: &Json<'_>,
) -> Result<Vec<u8>, Refusal>
    requires { AllFit (view body.now) }
    ensures { Told (TellsNext readable definitions.now (view body.now)) result }
{
    match contract_at(alloc, definitions, body) {
        Ok(given) => {
            let told = next_of(alloc, readable, given.contract(), body);
            beside_dropped(given, told)
        }
        Err(refusal) => Err(refusal),
    }
}

// .. of this contract.
#[tactic(auto, using(crate::proofs::AskingLemmas::part_steps))]
fn next_of(
    alloc: Global,
    readable: Readable,
    contract: &Contract,
    body: &Json<'_>,
) -> Result<Vec<u8>, Refusal>
    ensures { Told (TellsNextOf readable (view body.now) (contract_tree contract.now)) result }
{
    match state_at(alloc, readable.text_numbers, body) {
        Ok(state) => {
            let told = next_from(alloc, readable, contract, &state, body);
            beside_dropped(state, told)
        }
        Err(refusal) => Err(refusal),
    }
}

// .. from this state.
#[tactic(auto, using(crate::proofs::AskingLemmas::part_steps))]
fn next_from(
    alloc: Global,
    readable: Readable,
    contract: &Contract,
    state: &State,
    body: &Json<'_>,
) -> Result<Vec<u8>, Refusal>
    ensures { Told (TellsNextFrom readable (contract_tree contract.now) (view body.now) state.now) result }
{
    match transactions_at(alloc, "after", body) {
        Ok(transactions) => {
            let told = next_behind(
                alloc,
                readable,
                contract,
                state,
                transactions.as_slice(),
                body,
            );
            beside_dropped(transactions, told)
        }
        Err(refusal) => Err(refusal),
    }
}

// .. behind these transactions.
#[tactic(auto, using(crate::proofs::AskingLemmas::part_steps))]
fn next_behind(
    alloc: Global,
    readable: Readable,
    contract: &Contract,
    state: &State,
    transactions: &[Transaction],
    body: &Json<'_>,
) -> Result<Vec<u8>, Refusal>
    ensures { Told (TellsNextBehind readable (contract_tree contract.now) state.now (view body.now) transactions.now) result }
{
    match asked_at(readable, body) {
        Ok(asked) => next_told(alloc, contract, state, transactions, asked),
        Err(refusal) => Err(refusal),
    }
}

// .. over this interval.
fn next_told(
    alloc: Global,
    contract: &Contract,
    state: &State,
    transactions: &[Transaction],
    asked: Asked,
) -> Result<Vec<u8>, Refusal>
    ensures { Told (NextPrints asked (reached_by (contract_tree contract.now) state.now transactions.now)) result }
{
    match next_after(alloc, contract, state, transactions, asked) {
        Ok(line) => Ok(without_feed(line)),
        Err(fault) => Err(Refusal::from(fault)),
    }
}

// The interval that is asked about, at the keys `from` and `to`.
fn asked_at(readable: Readable, body: &Json<'_>) -> Result<Asked, Refusal>
    ensures { Aside Refusal.Memory result (asked_at readable (view body.now)) }
{
    let from = time_at(Part::From, "from", body)?;
    let to = time_at(Part::To, "to", body)?;
    Ok(Asked {
        from,
        to,
        readable,
        json: true,
    })
}
