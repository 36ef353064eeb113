//! Numbers of rows: whole ones, or also texts of their digits.
ghost use Rattle.contract.specs.Collections.Answers.{Aside};
ghost use Rattle.json_read_inputs.specs.ReadsNumber.{number_of_text};
ghost use Rattle.json_read_inputs.specs.Rows.{number_by};

use json_read_names::{JsonFault, read_whole};
use json_tree::JsonValue;
use std::alloc::Global;

// Which JSON values stand for a number.
#[derive(Clone, Copy)]
pub(crate) enum Numbers {
    // Whole numbers from -2^63 to 2^64 - 1.
    Whole,
    // These, and the texts of numbers from -2^127 to 2^127 - 1.
    OrTexts,
}

// The number whose digits a text is, as they are written.
#[tactic(auto, using(crate::proofs::DigitLaws::digit_steps))]
fn read_digits(alloc: Global, text: &str) -> Result<i128, JsonFault>
    ensures { Aside JsonFault.Memory result (number_of_text text.now) }
{
    match text.parse::<i128>() {
        Ok(number) => {
            let written = format!(in alloc; "{number}")?;
            if written.as_str() == text {
                Ok(number)
            } else {
                Err(JsonFault::NoForm)
            }
        }
        Err(_) => Err(JsonFault::NoForm),
    }
}

// The number that a JSON value stands for.
pub(crate) fn read_number<J: JsonValue>(
    alloc: Global,
    json: &J,
    numbers: Numbers,
) -> Result<i128, JsonFault>
    ensures { Aside JsonFault.Memory result (number_by numbers (J.json json.now)) }
{
    match numbers {
        Numbers::Whole => read_whole(json),
        Numbers::OrTexts => match json.text() {
            Some(text) => read_digits(alloc, text),
            None => read_whole(json),
        },
    }
}
