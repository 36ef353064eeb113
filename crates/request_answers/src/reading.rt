//! The canonical text of what stands in a request.
ghost use Rattle.std.specs.Prelude.{◌≡◌};
ghost use Rattle.contract.specs.Collections.Answers.{AsideBy};
ghost use Rattle.json_tree.specs.View.{view};
ghost use Rattle.serde_json.specs.Written.{compact_text};
ghost use Rattle.request_reasons.specs.RequestParts.PartsSupport.{AllFit};
ghost use Rattle.request_answers.specs.Reading.{contract_read, input_read, read_told, state_read, transaction_read, written};

use json_tree::{Json, JsonValue};
use marlowe_trace::{JsonFault, PutJson, RunFault, beside_dropped};
use request_reasons::{
    Definitions, Part, Refusal, contract_at, input_at, state_at, text_of, transaction_at,
};
use std::alloc::Global;

// The compact text of a contract, a state, a transaction or an input, as it is read. Of several keys the first counts.
pub(crate) fn read(
    alloc: Global,
    texts: bool,
    definitions: &Definitions,
    body: &Json<'_>,
) -> Result<Vec<u8>, Refusal>
    requires { AllFit (view body.now) }
    ensures { AsideBy Refusal.Memory (λ text. text.items) result (read_told texts definitions.now (view body.now)) }
{
    if body.member("contract").is_some() {
        return contract_read(alloc, definitions, body);
    }
    if body.member("state").is_some() {
        return state_read(alloc, texts, body);
    }
    if body.member("transaction").is_some() {
        return transaction_read(alloc, body);
    }
    if body.member("input").is_some() {
        return input_read(alloc, body);
    }
    Err(Refusal::Part(Part::Read, JsonFault::NoForm))
}

fn contract_read(
    alloc: Global,
    definitions: &Definitions,
    body: &Json<'_>,
) -> Result<Vec<u8>, Refusal>
    requires { AllFit (view body.now) }
    ensures { AsideBy Refusal.Memory (λ text. text.items) result (contract_read definitions.now (view body.now)) }
{
    let given = contract_at(alloc, definitions, body)?;
    let text = written(alloc, given.contract());
    beside_dropped(given, text)
}

fn state_read(alloc: Global, texts: bool, body: &Json<'_>) -> Result<Vec<u8>, Refusal>
    ensures { AsideBy Refusal.Memory (λ text. text.items) result (state_read texts (view body.now)) }
{
    let state = state_at(alloc, texts, body)?;
    let text = written(alloc, &state);
    beside_dropped(state, text)
}

fn transaction_read(alloc: Global, body: &Json<'_>) -> Result<Vec<u8>, Refusal>
    ensures { AsideBy Refusal.Memory (λ text. text.items) result (transaction_read (view body.now)) }
{
    let transaction = transaction_at(alloc, body)?;
    let text = written(alloc, &transaction);
    beside_dropped(transaction, text)
}

fn input_read(alloc: Global, body: &Json<'_>) -> Result<Vec<u8>, Refusal>
    ensures { AsideBy Refusal.Memory (λ text. text.items) result (input_read (view body.now)) }
{
    let input = input_at(alloc, body)?;
    let text = written(alloc, &input);
    beside_dropped(input, text)
}

// The text of a thing, or that JSON doesn't have one of its numbers.
fn written<T: PutJson>(alloc: Global, item: &T) -> Result<Vec<u8>, Refusal>
    ensures { AsideBy Refusal.Memory (λ text. text.items) result (written (T.fits item.now) (compact_text (T.json item.now))) }
{
    match text_of(alloc, item) {
        Ok(text) => Ok(text),
        Err(fault) => Err(Refusal::from(RunFault::from(fault))),
    }
}
