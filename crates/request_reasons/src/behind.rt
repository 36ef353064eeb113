//! What is behind a contract, and behind a state.
ghost use Rattle.std.specs.Prelude.{IfOk};
ghost use Rattle.contract.specs.Tree.{contract_tree};
ghost use Rattle.json_tree.specs.View.{view};
ghost use Rattle.refusal_reasons.specs.Semantics.Walk.{standing};
ghost use Rattle.request_parts.specs.PartsSupport.{AllFit};
ghost use Rattle.refusal_reasons.specs.JsonForms.declared.sort.Sort.TheVariants as sorts;
ghost use Rattle.request_reasons.specs.Parts.{TellsAny};
ghost use Rattle.request_reasons.specs.Reasons.{TellsBehind, TellsContract, TellsFrom, TellsRun, TellsState, contract_there};

use crate::parts::{part_told, told_at_key};
use crate::transactions::{next_told, trace_told};
use crate::values::state_sort;
use contract::{Contract, Memory, State};
use definitions::Definitions;
use json_tree::{Json, JsonValue};
use refusal_reasons::{Readable, Sort, Spelling, beside_dropped, table_told, transaction_told};
use request_parts::{Refusal, contract_at, name_of, state_at, transaction_at};
use requests::Kind;
use std::alloc::{AllocError, Global};

/// Why the contract of a request isn't read, or what is behind it is refused.
#[tactic(auto, using(crate::proofs::ReadingLemmas::unread_here))]
pub(crate) fn contract_told(
    alloc: Global,
    readable: Readable,
    definitions: &Definitions,
    kind: Kind,
    body: &Json<'_>,
) -> Result<Vec<u8>, Memory>
    requires { AllFit (view body.now) }
    ensures { IfOk result (λ written.
        TellsContract definitions.now (view body.now) (TellsBehind readable kind (view body.now)) written.items) }
{
    match contract_at(alloc, definitions, body) {
        Ok(given) => {
            let written = behind_told(alloc, readable, given.contract(), kind, body);
            beside_dropped(given, written)
        }
        Err(Refusal::Memory) => Err(AllocError),
        Err(_) => unread_contract(alloc, body),
    }
}

// Why the contract isn't read, unless it is a name.
fn unread_contract(alloc: Global, body: &Json<'_>) -> Result<Vec<u8>, Memory>
    ensures { IfOk result (λ written. TellsAny sorts.Contract (contract_there (view body.now)) written.items) }
{
    let Some(json) = body.member("contract") else {
        return Ok(Vec::new(alloc));
    };
    match name_of(json) {
        Some(_) => Ok(Vec::new(alloc)),
        None => part_told(alloc, Sort::Contract, json),
    }
}

// What is behind it.
fn behind_told(
    alloc: Global,
    readable: Readable,
    whole: &Contract,
    kind: Kind,
    body: &Json<'_>,
) -> Result<Vec<u8>, Memory>
    ensures { IfOk result (λ written. TellsBehind readable kind (view body.now) (contract_tree whole.now) written.items) }
{
    match kind {
        Kind::Table => table_told(alloc, whole, Spelling::Members),
        Kind::Read => Ok(Vec::new(alloc)),
        Kind::Bytes => told_at_key(alloc, Sort::Hex, "currency", body),
        _ => state_told(alloc, readable.text_numbers, whole, kind, body),
    }
}

// Why the state isn't read, or what is behind it is refused.
#[tactic(auto, using(crate::proofs::ReadingLemmas::behind_read, crate::proofs::ReadingLemmas::unread_here))]
fn state_told(
    alloc: Global,
    texts: bool,
    whole: &Contract,
    kind: Kind,
    body: &Json<'_>,
) -> Result<Vec<u8>, Memory>
    ensures { IfOk result (λ written.
        TellsState texts (view body.now) (contract_tree whole.now) (TellsFrom kind (view body.now)) written.items) }
{
    match state_at(alloc, texts, body) {
        Ok(start) => {
            let written = from_told(alloc, whole, &start, kind, body);
            beside_dropped(start, written)
        }
        Err(Refusal::Memory) => Err(AllocError),
        Err(_) => told_at_key(alloc, state_sort(texts), "state", body),
    }
}

// What is behind both.
fn from_told(
    alloc: Global,
    whole: &Contract,
    start: &State,
    kind: Kind,
    body: &Json<'_>,
) -> Result<Vec<u8>, Memory>
    ensures { IfOk result (λ written.
        TellsFrom kind (view body.now) (standing start.now (contract_tree whole.now)) written.items) }
{
    match kind {
        Kind::Run => run_told(alloc, whole, start, body),
        Kind::Trace => trace_told(alloc, whole, start, body),
        Kind::Next => next_told(alloc, whole, start, body),
        Kind::Analyse => told_at_key(alloc, Sort::Party, "party", body),
        _ => Ok(Vec::new(alloc)),
    }
}

// Why a transaction isn't read, or is refused.
#[tactic(auto, using(crate::proofs::ReadingLemmas::behind_read, crate::proofs::ReadingLemmas::unread_here))]
fn run_told(
    alloc: Global,
    whole: &Contract,
    start: &State,
    body: &Json<'_>,
) -> Result<Vec<u8>, Memory>
    ensures { IfOk result (λ written.
        TellsRun (view body.now) (standing start.now (contract_tree whole.now)) written.items) }
{
    match transaction_at(alloc, body) {
        Ok(transaction) => {
            let written = transaction_told(alloc, whole, start, &transaction, Spelling::Members);
            beside_dropped(transaction, written)
        }
        Err(Refusal::Memory) => Err(AllocError),
        Err(_) => told_at_key(alloc, Sort::Transaction, "transaction", body),
    }
}
