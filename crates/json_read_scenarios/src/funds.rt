//! What addresses have when a ledger begins as JSON values.
ghost use Rattle.contract.specs.Collections.Answers.{Aside};
ghost use Rattle.contract.specs.Names.Orders.{token_cmp};
ghost use Rattle.json_read_names.specs.Parts.{list, reading_at};
ghost use Rattle.json_read_inputs.specs.ReadsState.{amount_row, rows};
ghost use Rattle.json_read_scenarios.specs.ReadsScenario as reads;

use crate::lists::{ItemReader, list_at};
use crate::members::text_at;
use bundle::Bundle;
use contract::Items;
use json_read_inputs::amounts_from_json;
use json_read_names::{JsonFault, beside, has_two, member};
use json_tree::JsonValue;
use plans::Funds;
use std::alloc::Global;

fn bundle_at<J: JsonValue>(alloc: Global, json: &J, key: &str) -> Result<Bundle, JsonFault>
    ensures { Aside JsonFault.Memory result (reading_at (rows token_cmp amount_row) (J.json json.now) key.now) }
{
    let amounts = amounts_from_json(alloc, member(json, key)?)?;
    Ok(Bundle::from_entries(amounts))
}

fn funds_from_json<J: JsonValue>(alloc: Global, json: &J) -> Result<Funds, JsonFault>
    ensures { Aside JsonFault.Memory result (reads.funds (J.json json.now)) }
{
    if !has_two(json, "address", "amount") {
        return Err(JsonFault::NoForm);
    }
    let address = text_at(alloc, json, "address")?;
    let (address, amount) = beside(address, bundle_at(alloc, json, "amount"))?;
    Ok(Funds { address, amount })
}

#[derive(Clone, Copy)]
struct Beginnings;

impl ItemReader<Funds> for Beginnings {
    ghost reading = { λ _. reads.funds };

    fn item_from_json<J: JsonValue>(&self, alloc: Global, json: &J) -> Result<Funds, JsonFault> {
        funds_from_json(alloc, json)
    }
}

// What a ledger begins with, by the list that the member at a key is, in order.
pub(crate) fn genesis_at<J: JsonValue>(
    alloc: Global,
    json: &J,
    key: &str,
) -> Result<Items<Funds>, JsonFault>
    ensures { Aside JsonFault.Memory result (reading_at (list reads.funds) (J.json json.now) key.now) }
{
    list_at(alloc, &Beginnings, json, key)
}
