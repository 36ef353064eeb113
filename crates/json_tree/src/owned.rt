//! From trees to values that own their texts.
ghost use Rattle.std.specs.Prelude.{◌≡◌, length, Some, None, Err, IfOk, IsUtf8};
ghost use Rattle.serde_json.specs.View.{view as value_view, items_view as values_view, members_view as entries_view};
ghost use Rattle.json_tree.specs.View.{view, items_view, members_view, read_within};
ghost use Rattle.json_tree.specs.declared.read.Refusal.TheVariants.{NotJson};

use crate::read::{Refusal, from_slice_within};
use crate::tree::Json;
use json::Scratch;
use serde_json::{Map, Value};
use std::alloc::{AllocError, Global};

/// The `serde_json` value of a text of JSON, however deep it nests: a text of n bytes nests no deeper than n.
pub fn value_of_text(alloc: Global, text: &[u8]) -> Result<Value, Refusal>
    ensures ok { IfOk result (λ v. IsUtf8 text.now × (read_within (length text.now) text.now ≡ Some (value_view v))) }
    ensures err { result ≡ Err NotJson → IsUtf8 text.now → read_within (length text.now) text.now ≡ None }
{
    let mut scratch = Scratch::new(alloc);
    let json = from_slice_within(alloc, text, &mut scratch, text.len())?;
    Ok(value_of(alloc, &json)?)
}

#[cycle(value_of)]
fn value_of(alloc: Global, json: &Json<'_>) -> Result<Value, AllocError>
    ensures { IfOk result (λ v. value_view v ≡ view json.now) }
{
    match json {
        Json::Null => Ok(Value::Null),
        Json::Bool(b) => Ok(Value::Bool(*b)),
        Json::Number(number) => Ok(Value::Number(*number)),
        Json::String(text) => Ok(Value::String(String::from_str(alloc, *text)?)),
        Json::Array(items) => Ok(Value::Array(values_of(alloc, items)?)),
        Json::Object(members) => Ok(Value::Object(entries_of(alloc, members)?)),
    }
}

#[cycle(value_of)]
fn values_of(alloc: Global, items: &Vec<Json<'_>>) -> Result<Vec<Value>, AllocError>
    ensures { IfOk result (λ v. values_view v.items ≡ items_view items.now.items) }
{
    let mut values = Vec::with_capacity(alloc, items.len())?;
    for item in items {
        values.push(value_of(alloc, item)?)?;
    }
    Ok(values)
}

#[cycle(value_of)]
fn entries_of(
    alloc: Global,
    members: &Vec<(&str, Json<'_>)>,
) -> Result<Map<String, Value>, AllocError>
    ensures { IfOk result (λ m. entries_view m.entries ≡ members_view members.now.items) }
{
    let mut entries = Map::new(alloc);
    for member in members {
        let name = String::from_str(alloc, member.0)?;
        drop(entries.insert(name, value_of(alloc, &member.1)?)?);
    }
    Ok(entries)
}
