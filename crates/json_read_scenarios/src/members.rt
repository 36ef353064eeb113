//! What the members at keys stand for.
ghost use Rattle.contract.specs.Collections.Answers.{Aside};
ghost use Rattle.json_read_names.specs.Parts.{bytes, reading_at, text, time};

use contract::{Bytes, Text};
use json_read_names::{JsonFault, member, read_bytes, read_text, read_time};
use json_tree::JsonValue;
use std::alloc::Global;

pub(crate) fn text_at<J: JsonValue>(alloc: Global, json: &J, key: &str) -> Result<Text, JsonFault>
    ensures { Aside JsonFault.Memory result (reading_at text (J.json json.now) key.now) }
{
    read_text(alloc, member(json, key)?)
}

pub(crate) fn bytes_at<J: JsonValue>(alloc: Global, json: &J, key: &str) -> Result<Bytes, JsonFault>
    ensures { Aside JsonFault.Memory result (reading_at bytes (J.json json.now) key.now) }
{
    read_bytes(alloc, member(json, key)?)
}

pub(crate) fn time_at<J: JsonValue>(json: &J, key: &str) -> Result<i64, JsonFault>
    ensures { Aside JsonFault.Memory result (reading_at time (J.json json.now) key.now) }
{
    read_time(member(json, key)?)
}
