//! Whole numbers and times as JSON values.
ghost use Rattle.names.specs.Collections.Answers.{Aside};
ghost use Rattle.json_read_names.specs.Parts.{whole_number, time};

use crate::fault::JsonFault;
use json_tree::JsonValue;

/// The whole number from -2^63 to 2^64 - 1 that a JSON value is. Another number isn't whole here.
pub fn read_whole<J: JsonValue>(json: &J) -> Result<i128, JsonFault>
    ensures { Aside JsonFault.Memory result (whole_number (J.json json.now)) }
{
    if let Some(n) = json.natural() {
        Ok(i128::from(n))
    } else if let Some(n) = json.integer() {
        Ok(i128::from(n))
    } else if json.is_number() {
        Err(JsonFault::NotWhole)
    } else {
        Err(JsonFault::NoForm)
    }
}

/// The time that a JSON value is, in POSIX milliseconds: a whole number from -2^63 to 2^63 - 1. One from 2^63 to
/// 2^64 - 1 is out of range, and another number isn't whole.
pub fn read_time<J: JsonValue>(json: &J) -> Result<i64, JsonFault>
    ensures { Aside JsonFault.Memory result (time (J.json json.now)) }
{
    if let Some(n) = json.integer() {
        Ok(n)
    } else if json.natural().is_some() {
        Err(JsonFault::OutOfRange)
    } else if json.is_number() {
        Err(JsonFault::NotWhole)
    } else {
        Err(JsonFault::NoForm)
    }
}
