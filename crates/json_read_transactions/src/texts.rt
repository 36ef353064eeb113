//! The transactions of texts.
ghost use Rattle.std.specs.Prelude.{◌≡◌, ◌≢◌, map, Err};
ghost use Rattle.contract.specs.Collections.Answers.{Aside};
ghost use Rattle.serde_json.specs.View.{items_of};
ghost use Rattle.json_read_names.specs.ReadsText.{json_of};
ghost use Rattle.json_read_transactions.specs.ReadsTransactions.{item_readings, readings, value_readings, transactions_of};
ghost use Rattle.json_read_transactions.specs.TakingSupport.{Takes};

use crate::fault::ReadFault;
use crate::lines::put_lines;
use crate::taking::put_reading;
use contract::{Items, Transaction};
use json::Scratch;
use json_read_inputs::transaction_from_json;
use json_read_names::{JsonFault, json_of};
use json_tree::JsonValue;
use std::alloc::Global;

/// Reads the transactions of texts of at most 1,048,576 bytes, one text behind the other, 10,000 of all texts at most. A text
/// that is JSON is a transaction or a list of transactions. In one that isn't, each line is a transaction; a line ends at a line
/// feed, and lines of spaces, tabs and carriage returns alone are passed over. So an empty text has none. A text that is too long
/// is told as its first transaction.
pub fn read_transactions(alloc: Global, texts: &[Vec<u8>]) -> Result<Items<Transaction>, ReadFault>
    ensures reading { Aside ReadFault.Memory result (transactions_of (map (λ text. text.items) texts.now)) }
{
    let mut transactions = Items::new(alloc);
    for text in texts {
        put_text(alloc, text.as_slice(), &mut transactions)?;
    }
    Ok(transactions)
}

// The transactions of one text.
#[tactic(auto, unfolding(crate::specs::ReadsTransactions::readings))]
fn put_text(
    alloc: Global,
    text: &[u8],
    transactions: &mut Items<Transaction>,
) -> Result<(), ReadFault>
    ensures { Takes (readings text.now) transactions.old transactions.new result }
{
    let mut scratch = Scratch::new(alloc);
    match json_of(alloc, text, &mut scratch) {
        Ok(json) => put_value(alloc, &json, transactions),
        Err(fault) => put_unread(alloc, text, fault, transactions),
    }
}

// Those of a text that has no JSON value as a whole, for this reason.
#[tactic(auto, unfolding(crate::specs::ReadsTransactions::readings), using(crate::proofs::TakingLemmas::readings_fault))]
fn put_unread(
    alloc: Global,
    text: &[u8],
    fault: JsonFault,
    transactions: &mut Items<Transaction>,
) -> Result<(), ReadFault>
    requires { fault ≢ JsonFault.Memory → json_of text.now ≡ Err fault }
    ensures { Takes (readings text.now) transactions.old transactions.new result }
{
    match fault {
        JsonFault::NotJson => put_lines(alloc, text, transactions),
        JsonFault::Memory => Err(ReadFault::Memory),
        other => put_reading(transactions, Err(other)),
    }
}

// A list of transactions, or one.
fn put_value<J: JsonValue>(
    alloc: Global,
    json: &J,
    transactions: &mut Items<Transaction>,
) -> Result<(), ReadFault>
    ensures { Takes (value_readings (J.json json.now)) transactions.old transactions.new result }
{
    match json.items() {
        Some(items) => put_items(alloc, items, transactions),
        None => put_reading(transactions, transaction_from_json(alloc, json)),
    }
}

fn put_items<J: JsonValue>(
    alloc: Global,
    items: &[J],
    transactions: &mut Items<Transaction>,
) -> Result<(), ReadFault>
    ensures { Takes (item_readings (items_of (map J.json items.now))) transactions.old transactions.new result }
{
    for item in items {
        put_reading(transactions, transaction_from_json(alloc, item))?;
    }
    Ok(())
}
