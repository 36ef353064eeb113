//! The numbers of a state.
ghost use Rattle.contract.specs.Collections.Answers.{Aside};
ghost use Rattle.json_read_inputs.specs.ReadsNumber.{number_of_text};
ghost use Rattle.json_stops.specs.FormsRead.{number};

use json_forms::Numbers;
use json_read_names::{JsonFault, read_whole};
use json_tree::JsonValue;
use std::alloc::Global;

/// The number that a JSON value stands for.
pub(crate) fn read_number<J: JsonValue>(
    alloc: Global,
    json: &J,
    numbers: Numbers,
) -> Result<i128, JsonFault>
    ensures { Aside JsonFault.Memory result (number numbers (J.json json.now)) }
{
    match numbers {
        Numbers::Whole => read_whole(json),
        Numbers::OrTexts => match json.text() {
            Some(text) => read_digits(alloc, text),
            None => read_whole(json),
        },
    }
}

// The number whose digits a text is, as they are written.
#[tactic(auto, using(json_read_inputs::proofs::DigitLaws::digit_steps))]
fn read_digits(alloc: Global, text: &str) -> Result<i128, JsonFault>
    ensures { Aside JsonFault.Memory result (number_of_text text.now) }
{
    match text.parse::<i128>() {
        Ok(number) => {
            let written = format!(in alloc; "{number}")?;
            if written.as_str() == text {
                Ok(number)
            } else {
                Err(JsonFault::NoForm)
            }
        }
        Err(_) => Err(JsonFault::NoForm),
    }
}
