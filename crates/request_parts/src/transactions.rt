//! Transactions that stand in a request.
ghost use Rattle.std.specs.Prelude.{◌≡◌, [], ◌∷◌};
ghost use Rattle.contract.specs.Collections.Answers.{Aside};
ghost use Rattle.contract.specs.declared.transaction.Transaction.{Transaction};
ghost use Rattle.marlowe_run.specs.JsonReadNames.Parts.{Reading};
ghost use Rattle.marlowe_run.specs.JsonReadNames.declared.fault.JsonFault.TheVariants as json;
ghost use Rattle.json_read_transactions.specs.TakingSupport.{Takes};
ghost use Rattle.json_tree.specs.View.{view, items_view};
ghost use Rattle.json_read_transactions.specs.ReadsTransactions.{item_readings, taken, value_readings};
ghost use Rattle.json_read_transactions.specs.declared.fault.ReadFault.{ReadFault};
ghost use Rattle.request_parts.specs.Parts.{transactions_at};

use crate::refusal::Refusal;
use contract::{Items, Transaction};
use json_read_transactions::ReadFault;
use json_tree::{Json, JsonValue};
use marlowe_run::{JsonFault, TraceFault, transaction_from_json};
use std::alloc::Global;

// The greatest number of transactions.
const MOST: usize = 10_000;

/// The transactions at a key: a list of them or one, none where the key isn't there.
pub fn transactions_at(
    alloc: Global,
    key: &str,
    body: &Json<'_>,
) -> Result<Items<Transaction>, Refusal>
    ensures { Aside Refusal.Memory result (transactions_at key.now (view body.now)) }
{
    match body.member(key) {
        Some(json) => match transactions_of(alloc, json) {
            Ok(transactions) => Ok(transactions),
            Err(fault) => Err(Refusal::from(TraceFault::from(fault))),
        },
        None => Ok(Items::new(alloc)),
    }
}

// Those that a value stands for.
fn transactions_of(alloc: Global, json: &Json<'_>) -> Result<Items<Transaction>, ReadFault>
    ensures { Aside ReadFault.Memory result (taken 0 (value_readings (view json.now))) }
{
    let mut transactions = Items::new(alloc);
    put_value(alloc, json, &mut transactions)?;
    Ok(transactions)
}

fn put_value(
    alloc: Global,
    json: &Json<'_>,
    transactions: &mut Items<Transaction>,
) -> Result<(), ReadFault>
    ensures { Takes (value_readings (view json.now)) transactions.old transactions.new result }
{
    match json.items() {
        Some(items) => put_items(alloc, items, transactions),
        None => put_reading(transactions, transaction_from_json(alloc, json)),
    }
}

fn put_items(
    alloc: Global,
    items: &[Json<'_>],
    transactions: &mut Items<Transaction>,
) -> Result<(), ReadFault>
    ensures { Takes (item_readings (items_view items.now)) transactions.old transactions.new result }
{
    for item in items {
        put_reading(transactions, transaction_from_json(alloc, item))?;
    }
    Ok(())
}

// Puts what was read behind the transactions, or tells its fault by its number; or that it is one too many.
fn put_reading(
    transactions: &mut Items<Transaction>,
    reading: Result<Transaction, JsonFault>,
) -> Result<(), ReadFault>
    ensures { (answer : Reading Transaction) → Aside json.Memory reading answer
        → Takes (answer ∷ []) transactions.old transactions.new result }
{
    match reading {
        Err(JsonFault::Memory) => Err(ReadFault::Memory),
        _ if transactions.len() >= MOST => Err(ReadFault::TooMany),
        Ok(transaction) => {
            transactions.push(transaction)?;
            Ok(())
        }
        Err(fault) => Err(ReadFault::Text(transactions.len() as u64 + 1, fault)),
    }
}
