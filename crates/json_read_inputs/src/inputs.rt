//! Inputs and transactions as JSON values.
ghost use Rattle.contract.specs.Collections.Answers.{Aside};
ghost use Rattle.json_read_names.specs.Parts.{list};
ghost use Rattle.json_read_inputs.specs.ReadsInput as reads;

use crate::members::{choice_id_at, party_at, time_at, token_at, whole_at};
use contract::{Input, Interval, Items, Transaction};
use json_read_names::{InputForm, JsonFault, has_two, input_form, member};
use json_tree::JsonValue;
use std::alloc::Global;

/// The input that a JSON value stands for (Marlowe specification version 3, "Actions and inputs"). An
/// amount and the number of a choice are whole numbers from -2^63 to 2^64 - 1.
#[tactic(auto, unfolding(crate::specs::ReadsInput::input_by))]
pub fn input_from_json<J: JsonValue>(alloc: Global, json: &J) -> Result<Input, JsonFault>
    ensures reading { Aside JsonFault.Memory result (reads.input (J.json json.now)) }
{
    match input_form(json) {
        InputForm::Notify => Ok(Input::Notify),
        InputForm::Deposit => {
            let depositor = party_at(alloc, json, "input_from_party")?;
            let amount = whole_at(json, "that_deposits")?;
            let token = token_at(alloc, json, "of_token")?;
            let account = party_at(alloc, json, "into_account")?;
            Ok(Input::Deposit(account, depositor, token, amount))
        }
        InputForm::Choice => {
            let id = choice_id_at(alloc, json, "for_choice_id")?;
            let number = whole_at(json, "input_that_chooses_num")?;
            Ok(Input::Choice(id, number))
        }
        InputForm::Nothing => Err(JsonFault::NoForm),
    }
}

/// The interval that a JSON value stands for: two times.
pub fn interval_from_json<J: JsonValue>(json: &J) -> Result<Interval, JsonFault>
    ensures reading { Aside JsonFault.Memory result (reads.interval (J.json json.now)) }
{
    if !has_two(json, "from", "to") {
        return Err(JsonFault::NoForm);
    }
    let from = time_at(json, "from")?;
    let to = time_at(json, "to")?;
    Ok(Interval { from, to })
}

/// The inputs that a list stands for, in order.
pub fn inputs_from_json<J: JsonValue>(alloc: Global, json: &J) -> Result<Items<Input>, JsonFault>
    ensures reading { Aside JsonFault.Memory result (list reads.input (J.json json.now)) }
{
    let items = json.items().ok_or(JsonFault::NoForm)?;
    let mut inputs = Items::new(alloc);
    for item in items {
        inputs.push(input_from_json(alloc, item)?)?;
    }
    Ok(inputs)
}

/// The transaction that a JSON value stands for.
pub fn transaction_from_json<J: JsonValue>(
    alloc: Global,
    json: &J,
) -> Result<Transaction, JsonFault>
    ensures reading { Aside JsonFault.Memory result (reads.transaction (J.json json.now)) }
{
    if !has_two(json, "tx_interval", "tx_inputs") {
        return Err(JsonFault::NoForm);
    }
    let interval = interval_from_json(member(json, "tx_interval")?)?;
    let inputs = inputs_from_json(alloc, member(json, "tx_inputs")?)?;
    Ok(Transaction { interval, inputs })
}
