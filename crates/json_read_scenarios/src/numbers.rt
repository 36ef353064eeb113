//! Numbers of intents and plans, and members that may be left out.
ghost use Rattle.contract.specs.Collections.Answers.{Aside};
ghost use Rattle.json_read_scenarios.specs.ReadsPlan.{natural, count, workers, calls, truth, if_there};

use json_read_names::JsonFault;
use json_tree::JsonValue;

// The whole number from 0 to 2^64 - 1 that a JSON value is. What is below 0 has the given fault.
fn read_natural<J: JsonValue>(json: &J, below: JsonFault) -> Result<u64, JsonFault>
    ensures { Aside JsonFault.Memory result (natural below (J.json json.now)) }
{
    if let Some(n) = json.natural() {
        Ok(n)
    } else if json.integer().is_some() {
        Err(below)
    } else if json.is_number() {
        Err(JsonFault::NotWhole)
    } else {
        Err(JsonFault::NoForm)
    }
}

// How many transactions a round takes.
pub(crate) fn read_count<J: JsonValue>(json: &J) -> Result<u64, JsonFault>
    ensures { Aside JsonFault.Memory result (count (J.json json.now)) }
{
    read_natural(json, JsonFault::OutOfRange)
}

// How many workers check: from 1 to 16.
pub(crate) fn read_workers<J: JsonValue>(json: &J) -> Result<usize, JsonFault>
    ensures { Aside JsonFault.Memory result (workers (J.json json.now)) }
{
    let n = read_natural(json, JsonFault::NoForm)?;
    if 0 < n && n < 17 {
        Ok(n as usize)
    } else {
        Err(JsonFault::NoForm)
    }
}

fn read_calls<J: JsonValue>(json: &J) -> Result<u64, JsonFault>
    ensures { Aside JsonFault.Memory result (calls (J.json json.now)) }
{
    let n = read_natural(json, JsonFault::OutOfRange)?;
    if n < 1 << 63 {
        Ok(n)
    } else {
        Err(JsonFault::OutOfRange)
    }
}

// After how many calls a plan stops, where it has the key.
pub(crate) fn calls_at<J: JsonValue>(json: &J, key: &str) -> Result<Option<u64>, JsonFault>
    ensures { Aside JsonFault.Memory result (if_there calls (J.json json.now) key.now) }
{
    match json.member(key) {
        Some(found) => Ok(Some(read_calls(found)?)),
        None => Ok(None),
    }
}

fn read_truth<J: JsonValue>(json: &J) -> Result<bool, JsonFault>
    ensures { Aside JsonFault.Memory result (truth (J.json json.now)) }
{
    json.truth().ok_or(JsonFault::NoForm)
}

// The truth value at a key, where there is one.
pub(crate) fn truth_at<J: JsonValue>(json: &J, key: &str) -> Result<Option<bool>, JsonFault>
    ensures { Aside JsonFault.Memory result (if_there truth (J.json json.now) key.now) }
{
    match json.member(key) {
        Some(found) => Ok(Some(read_truth(found)?)),
        None => Ok(None),
    }
}
