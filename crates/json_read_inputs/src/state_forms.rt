//! States as JSON values.
ghost use Rattle.contract.specs.Collections.Answers.{Aside};
ghost use Rattle.json_read_inputs.specs.ReadsState as reads;
ghost use Rattle.json_read_inputs.specs.Rows.{number_by};

use crate::members::{accounts_at, entries_at, time_at};
use crate::numbers::Numbers;
use contract::{ChoiceId, State, Text};
use json_read_names::{JsonFault, has_two};
use json_tree::JsonValue;
use std::alloc::Global;

// The state that a JSON value stands for, by the reading of a number.
fn state_by<J: JsonValue>(alloc: Global, json: &J, numbers: Numbers) -> Result<State, JsonFault>
    ensures { Aside JsonFault.Memory result (reads.state_by (number_by numbers) (J.json json.now)) }
{
    if !(has_two(json, "accounts", "choices") && has_two(json, "boundValues", "minTime")) {
        return Err(JsonFault::NoForm);
    }
    let accounts = accounts_at(alloc, json, "accounts", numbers)?;
    let choices = entries_at::<J, ChoiceId>(alloc, json, "choices", numbers)?;
    let bound_values = entries_at::<J, Text>(alloc, json, "boundValues", numbers)?;
    let min_time = time_at(json, "minTime")?;
    Ok(State::from_entries(accounts, choices, bound_values, min_time))
}

/// The state that a JSON value stands for.
pub fn state_from_json<J: JsonValue>(alloc: Global, json: &J) -> Result<State, JsonFault>
    ensures reading { Aside JsonFault.Memory result (reads.state (J.json json.now)) }
{
    state_by(alloc, json, Numbers::Whole)
}

/// The state that a JSON value stands for, where a number of an account, a choice or a bound value may also be the text of
/// a number from -2^127 to 2^127 - 1: its decimal digits as they are written, with `-` before one below 0. Another text is
/// `NoForm`. The minimum time is a number.
pub fn state_with_texts_from_json<J: JsonValue>(alloc: Global, json: &J) -> Result<State, JsonFault>
    ensures reading { Aside JsonFault.Memory result (reads.state_with_texts (J.json json.now)) }
{
    state_by(alloc, json, Numbers::OrTexts)
}
