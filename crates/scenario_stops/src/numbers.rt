//! Numbers of intents and plans, and truth values.
ghost use Rattle.std.specs.Prelude.{◌≡◌};
ghost use Rattle.json_read_scenarios.specs.ReadsPlan.{natural, count, workers, calls, truth};
ghost use Rattle.json_stops.specs.Stops.{fault_of};
ghost use Rattle.scenario_stops.specs.Parts.{single};

use crate::form::Shape;
use json_read_names::JsonFault;
use json_tree::JsonValue;

// The whole number from 0 to 2^64 - 1 that a JSON value is. What is below 0 has the given fault.
fn read_natural<J: JsonValue>(json: &J, below: JsonFault) -> Result<u64, JsonFault>
    ensures { result ≡ natural below (J.json json.now) }
{
    if let Some(n) = json.natural() {
        Ok(n)
    } else if json.integer().is_some() {
        Err(below)
    } else if json.is_number() {
        Err(JsonFault::NotWhole)
    } else {
        Err(JsonFault::NoForm)
    }
}

/// How many transactions a round takes.
pub(crate) fn count_shape<J: JsonValue>(json: &J) -> Result<Shape, JsonFault>
    ensures { result ≡ single (fault_of (count (J.json json.now))) }
{
    match read_natural(json, JsonFault::OutOfRange) {
        Ok(_) => Ok(Shape::Single),
        Err(fault) => Err(fault),
    }
}

/// How many workers check.
pub(crate) fn workers_shape<J: JsonValue>(json: &J) -> Result<Shape, JsonFault>
    ensures { result ≡ single (fault_of (workers (J.json json.now))) }
{
    match read_natural(json, JsonFault::NoForm) {
        Ok(n) => {
            if 0 < n && n < 17 {
                Ok(Shape::Single)
            } else {
                Err(JsonFault::NoForm)
            }
        }
        Err(fault) => Err(fault),
    }
}

/// After how many calls a plan stops.
pub(crate) fn calls_shape<J: JsonValue>(json: &J) -> Result<Shape, JsonFault>
    ensures { result ≡ single (fault_of (calls (J.json json.now))) }
{
    match read_natural(json, JsonFault::OutOfRange) {
        Ok(n) => {
            if n < 1 << 63 {
                Ok(Shape::Single)
            } else {
                Err(JsonFault::OutOfRange)
            }
        }
        Err(fault) => Err(fault),
    }
}

pub(crate) fn truth_shape<J: JsonValue>(json: &J) -> Result<Shape, JsonFault>
    ensures { result ≡ single (fault_of (truth (J.json json.now))) }
{
    match json.truth() {
        Some(_) => Ok(Shape::Single),
        None => Err(JsonFault::NoForm),
    }
}
