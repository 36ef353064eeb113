//! Looking into JSON values.
ghost use Rattle.std.specs.Prelude.{◌≡◌, ◌<◌, Ok, IfOk};
ghost use Rattle.names.specs.Collections.Answers.{Aside, AsideBy};
ghost use Rattle.serde_json.specs.Data.{depth};
ghost use Rattle.json_read_names.specs.Forms.{has, has_two, has_three, is_number, is_word};
ghost use Rattle.json_read_names.specs.Parts.{both_readings, member_at, pair, text, bytes};

use crate::fault::JsonFault;
use json_tree::JsonValue;
use names::collections::{Bytes, Text};
use std::alloc::Global;

/// Whether this is an object that has the key.
pub fn has<J: JsonValue>(json: &J, key: &str) -> bool
    ensures { result ≡ has key.now (J.json json.now) }
{
    json.member(key).is_some()
}

/// Whether this is an object that has both keys.
pub fn has_two<J: JsonValue>(json: &J, a: &str, b: &str) -> bool
    ensures { result ≡ has_two a.now b.now (J.json json.now) }
{
    has(json, a) && has(json, b)
}

/// Whether this is an object that has all three keys.
pub fn has_three<J: JsonValue>(json: &J, a: &str, b: &str, c: &str) -> bool
    ensures { result ≡ has_three a.now b.now c.now (J.json json.now) }
{
    has(json, a) && has_two(json, b, c)
}

/// Whether this is a number.
pub fn is_number<J: JsonValue>(json: &J) -> bool
    ensures { result ≡ is_number (J.json json.now) }
{
    json.is_number()
}

/// Whether this is that text.
pub fn is_word<J: JsonValue>(json: &J, word: &str) -> bool
    ensures { result ≡ is_word word.now (J.json json.now) }
{
    match json.text() {
        Some(text) => text == word,
        None => false,
    }
}

/// The member at a key. Where there is none, the value has no form.
#[tactic(auto, using(crate::proofs::DepthLaws::deeper))]
pub fn member<'j, J: JsonValue>(json: &'j J, key: &str) -> Result<&'j J, JsonFault>
    ensures found { AsideBy JsonFault.Memory (λ v. J.json v.now) result (member_at key.now (J.json json.now)) }
    ensures deeper { IfOk result (λ v. depth (J.json v.now) < depth (J.json json.now)) }
{
    match json.member(key) {
        Some(found) => Ok(found),
        None => Err(JsonFault::NoForm),
    }
}

/// The two items of a list of just two.
pub fn pair<J: JsonValue>(json: &J) -> Result<(&J, &J), JsonFault>
    ensures { AsideBy JsonFault.Memory (λ p. (J.json p.0.now, J.json p.1.now)) result (pair (J.json json.now)) }
{
    match json.items() {
        Some(items) => match items {
            [a, b] => Ok((a, b)),
            _ => Err(JsonFault::NoForm),
        },
        None => Err(JsonFault::NoForm),
    }
}

/// The text that a JSON value is.
pub fn read_text<J: JsonValue>(alloc: Global, json: &J) -> Result<Text, JsonFault>
    ensures { Aside JsonFault.Memory result (text (J.json json.now)) }
{
    let text = json.text().ok_or(JsonFault::NoForm)?;
    Ok(Text::from_string(String::from_str(alloc, text)?))
}

/// The bytes that a text of hexadecimal digits of either case stands for.
pub fn read_bytes<J: JsonValue>(alloc: Global, json: &J) -> Result<Bytes, JsonFault>
    ensures { Aside JsonFault.Memory result (bytes (J.json json.now)) }
{
    let text = json.text().ok_or(JsonFault::NoForm)?;
    match hex::decode(alloc, text) {
        Ok(bytes) => Ok(Bytes::from_vec(bytes)),
        Err(hex::FromHexError::OutOfMemory) => Err(JsonFault::Memory),
        Err(_) => Err(JsonFault::BadHex),
    }
}

/// What was read, beside what was read after it. Where that has a fault, it is the fault, and what was read before
/// is dropped.
pub fn beside<A: Drop, B>(first: A, second: Result<B, JsonFault>) -> Result<(A, B), JsonFault>
    ensures { result ≡ both_readings (Ok first) second }
{
    match second {
        Ok(second) => Ok((first, second)),
        Err(fault) => Err(fault),
    }
}
