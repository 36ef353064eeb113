//! What the commands print, of a request's parts.
ghost use Rattle.std.specs.Prelude.{◌≡◌, true};
ghost use Rattle.contract.specs.Collections.Answers.{AsideBy};
ghost use Rattle.contract.specs.Tree.{contract_tree};
ghost use Rattle.json_tree.specs.View.{view};
ghost use Rattle.marlowe_trace.specs.JsonWriteContracts.WrittenContract.{contract_fits};
ghost use Rattle.request_reasons.specs.RequestParts.PartsSupport.{AllFit};
ghost use Rattle.request_answers.specs.Commands.{run_told, run_with, table_of, table_told, trace_seen, trace_told, trace_with};

use contract::Contract;
use json_tree::Json;
use line_objects::lines_object;
use marlowe_trace::{Traced, beside_dropped, outcome_text, printed_table, traced};
use request_reasons::{
    Definitions, Refusal, contract_at, state_at, transaction_at, transactions_at, without_feed,
};
use std::alloc::Global;

// The outcome of one transaction.
pub(crate) fn run(
    alloc: Global,
    texts: bool,
    definitions: &Definitions,
    body: &Json<'_>,
) -> Result<Vec<u8>, Refusal>
    requires { AllFit (view body.now) }
    ensures { AsideBy Refusal.Memory (λ text. text.items) result (run_told texts definitions.now (view body.now)) }
{
    let given = contract_at(alloc, definitions, body)?;
    let told = run_with(alloc, texts, given.contract(), body);
    beside_dropped(given, told)
}

fn run_with(
    alloc: Global,
    texts: bool,
    contract: &Contract,
    body: &Json<'_>,
) -> Result<Vec<u8>, Refusal>
    requires { contract_fits (contract_tree contract.now) ≡ true }
    ensures { AsideBy Refusal.Memory (λ text. text.items) result (run_with texts (contract_tree contract.now) (view body.now)) }
{
    let state = state_at(alloc, texts, body)?;
    let transaction = transaction_at(alloc, body)?;
    let line = outcome_text(alloc, contract, &state, &transaction)?;
    Ok(without_feed(line))
}

// The outcomes of transactions one after another, and the first that is refused.
pub(crate) fn trace(
    alloc: Global,
    texts: bool,
    definitions: &Definitions,
    body: &Json<'_>,
) -> Result<Traced, Refusal>
    requires { AllFit (view body.now) }
    ensures { AsideBy Refusal.Memory trace_seen result (trace_told texts definitions.now (view body.now)) }
{
    let given = contract_at(alloc, definitions, body)?;
    let told = trace_with(alloc, texts, given.contract(), body);
    beside_dropped(given, told)
}

fn trace_with(
    alloc: Global,
    texts: bool,
    contract: &Contract,
    body: &Json<'_>,
) -> Result<Traced, Refusal>
    requires { contract_fits (contract_tree contract.now) ≡ true }
    ensures { AsideBy Refusal.Memory trace_seen result (trace_with texts (contract_tree contract.now) (view body.now)) }
{
    let state = state_at(alloc, texts, body)?;
    let transactions = transactions_at(alloc, "transactions", body)?;
    let told = traced(alloc, contract, state, transactions.as_slice(), false)?;
    Ok(told)
}

// The lines of a contract's table, as an object.
pub(crate) fn table(
    alloc: Global,
    definitions: &Definitions,
    body: &Json<'_>,
) -> Result<Vec<u8>, Refusal>
    requires { AllFit (view body.now) }
    ensures { AsideBy Refusal.Memory (λ text. text.items) result (table_told definitions.now (view body.now)) }
{
    let given = contract_at(alloc, definitions, body)?;
    let told = table_of(alloc, given.contract());
    beside_dropped(given, told)
}

fn table_of(alloc: Global, contract: &Contract) -> Result<Vec<u8>, Refusal>
    ensures { AsideBy Refusal.Memory (λ text. text.items) result (table_of (contract_tree contract.now)) }
{
    let text = printed_table(alloc, contract)?;
    let line = lines_object(alloc, text.as_slice())?;
    Ok(without_feed(line))
}
