//! Transactions one after another.
ghost use Rattle.std.specs.Prelude.{◌≡◌, None, IfOk, codes, option_map};
ghost use Rattle.contract.specs.Tree.{contract_tree};
ghost use Rattle.json_tree.specs.View.{view, items_view};
ghost use Rattle.refusal_reasons.specs.Semantics.Walk.{standing};
ghost use Rattle.serde_json.specs.Find.{get_item};
ghost use Rattle.refusal_reasons.specs.JsonForms.declared.sort.Sort.TheVariants as sorts;
ghost use Rattle.refusal_reasons.specs.JsonMembers.declared.spelling.Spelling.TheVariants as spellings;
ghost use Rattle.refusal_reasons.specs.Reasons.{TellsRead};
ghost use Rattle.request_parts.specs.declared.refusal.Part.TheVariants as asked;
ghost use Rattle.request_reasons.specs.Parts.{TellsAny};
ghost use Rattle.request_reasons.specs.Reasons.{TellsNext, TellsOver, TellsTime, TellsTimes, TellsTrace, numbered, unread};

use crate::parts::{any_told, told_at_key};
use contract::{Contract, Memory, State, Transaction};
use json_tree::{Json, JsonValue};
use refusal_reasons::{Fault, Over, Sort, Spelling, TraceFault, beside_dropped, read_told};
use request_parts::{Part, Refusal, time_at, transactions_at};
use std::alloc::{AllocError, Global};

/// Why transactions one after another are refused.
#[tactic(auto, using(crate::proofs::ReadingLemmas::these_told, crate::proofs::ReadingLemmas::these_unread))]
pub(crate) fn trace_told(
    alloc: Global,
    whole: &Contract,
    start: &State,
    body: &Json<'_>,
) -> Result<Vec<u8>, Memory>
    ensures { IfOk result (λ written.
        TellsTrace (view body.now) (standing start.now (contract_tree whole.now)) written.items) }
{
    match transactions_at(alloc, "transactions", body) {
        Ok(transactions) => {
            let written = list_told(alloc, whole, start, transactions.as_slice());
            beside_dropped(transactions, written)
        }
        Err(Refusal::Memory) => Err(AllocError),
        Err(refusal) => unread_told(alloc, refusal, "transactions", body),
    }
}

// .. once they are read.
fn list_told(
    alloc: Global,
    whole: &Contract,
    start: &State,
    transactions: &[Transaction],
) -> Result<Vec<u8>, Memory>
    ensures { IfOk result (λ written.
        TellsRead spellings.Members None (standing start.now (contract_tree whole.now)) transactions.now written.items) }
{
    read_told(alloc, whole, start, transactions, None, Spelling::Members)
}

/// .. or what may come behind them.
#[tactic(auto, using(crate::proofs::ReadingLemmas::these_told, crate::proofs::ReadingLemmas::these_unread))]
pub(crate) fn next_told(
    alloc: Global,
    whole: &Contract,
    start: &State,
    body: &Json<'_>,
) -> Result<Vec<u8>, Memory>
    ensures { IfOk result (λ written.
        TellsNext (view body.now) (standing start.now (contract_tree whole.now)) written.items) }
{
    match transactions_at(alloc, "after", body) {
        Ok(transactions) => {
            let written = times_told(alloc, whole, start, transactions.as_slice(), body);
            beside_dropped(transactions, written)
        }
        Err(Refusal::Memory) => Err(AllocError),
        Err(refusal) => unread_told(alloc, refusal, "after", body),
    }
}

// .. over an interval.
#[tactic(auto, using(crate::proofs::ReadingLemmas::behind_read, crate::proofs::ReadingLemmas::unread_here))]
fn times_told(
    alloc: Global,
    whole: &Contract,
    start: &State,
    transactions: &[Transaction],
    body: &Json<'_>,
) -> Result<Vec<u8>, Memory>
    ensures { IfOk result (λ written.
        TellsTimes (view body.now) (standing start.now (contract_tree whole.now)) transactions.now written.items) }
{
    match time_at(Part::From, "from", body) {
        Ok(from) => to_told(alloc, whole, start, transactions, from, body),
        Err(Refusal::Memory) => Err(AllocError),
        Err(_) => told_at_key(alloc, Sort::Time, "from", body),
    }
}

// .. that begins then, if that is said.
#[tactic(auto, using(crate::proofs::ReadingLemmas::behind_read, crate::proofs::ReadingLemmas::unread_here))]
fn to_told(
    alloc: Global,
    whole: &Contract,
    start: &State,
    transactions: &[Transaction],
    from: Option<i64>,
    body: &Json<'_>,
) -> Result<Vec<u8>, Memory>
    ensures { IfOk result (λ written. TellsTime asked.To (codes "to") (view body.now)
        (TellsOver (standing start.now (contract_tree whole.now)) transactions.now from) written.items) }
{
    match time_at(Part::To, "to", body) {
        Ok(to) => {
            let over = Over { from, to };
            read_told(
                alloc,
                whole,
                start,
                transactions,
                Some(over),
                Spelling::Members,
            )
        }
        Err(Refusal::Memory) => Err(AllocError),
        Err(_) => told_at_key(alloc, Sort::Time, "to", body),
    }
}

// The transaction of a list that isn't read.
fn unread_told(
    alloc: Global,
    refusal: Refusal,
    key: &str,
    body: &Json<'_>,
) -> Result<Vec<u8>, Memory>
    ensures { IfOk result (λ written. TellsAny sorts.Transaction (unread refusal key.now (view body.now)) written.items) }
{
    any_told(alloc, Sort::Transaction, unread(refusal, key, body))
}

fn unread<'j, 'a>(refusal: Refusal, key: &str, body: &'j Json<'a>) -> Option<&'j Json<'a>>
    ensures { option_map (λ json. view json.now) result ≡ unread refusal key.now (view body.now) }
{
    match refusal {
        Refusal::Command(Fault::Trace(TraceFault::Text(number, _))) => match body.member(key) {
            Some(json) => numbered(number, json),
            None => None,
        },
        _ => None,
    }
}

// What stands for the transaction of a number.
fn numbered<'j, 'a>(number: u64, json: &'j Json<'a>) -> Option<&'j Json<'a>>
    ensures { option_map (λ json. view json.now) result ≡ numbered number (view json.now) }
{
    match json.items() {
        Some(items) => item_at(items, number.saturating_sub(1) as usize),
        None => Some(json),
    }
}

#[tactic(auto, using(crate::proofs::ItemLemmas::item_steps))]
fn item_at<'j, 'a>(items: &'j [Json<'a>], index: usize) -> Option<&'j Json<'a>>
    ensures { option_map (λ json. view json.now) result ≡ get_item index (items_view items.now) }
{
    if index < items.len() {
        Some(&items[index])
    } else {
        None
    }
}
