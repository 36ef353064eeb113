//! A value that owns its texts, of one that borrows them.
ghost use Rattle.std.specs.Prelude.{◌≡◌, IfOk};
ghost use Rattle.serde_json.specs.View.{view as value_view, items_view as values_view, members_view as entries_view};
ghost use Rattle.json_tree.specs.View.{view, items_view, members_view};

use collections::Memory;
use json_tree::Json;
use serde_json::{Map, Value};
use std::alloc::Global;

/// The value of a tree. A key that stands twice has the last value.
#[cycle(value_of)]
pub fn value_of(alloc: Global, json: &Json<'_>) -> Result<Value, Memory>
    ensures { IfOk result (λ v. value_view v ≡ view json.now) }
{
    match json {
        Json::Null => Ok(Value::Null),
        Json::Bool(b) => Ok(Value::Bool(*b)),
        Json::Number(number) => Ok(Value::Number(*number)),
        Json::String(text) => Ok(Value::String(String::from_str(alloc, *text)?)),
        Json::Array(items) => Ok(Value::Array(values_of(alloc, items)?)),
        Json::Object(members) => Ok(Value::Object(entries_of(alloc, members)?)),
    }
}

#[cycle(value_of)]
fn values_of(alloc: Global, items: &Vec<Json<'_>>) -> Result<Vec<Value>, Memory>
    ensures { IfOk result (λ v. values_view v.items ≡ items_view items.now.items) }
{
    let mut values = Vec::with_capacity(alloc, items.len())?;
    for item in items {
        values.push(value_of(alloc, item)?)?;
    }
    Ok(values)
}

#[cycle(value_of)]
fn entries_of(alloc: Global, members: &Vec<(&str, Json<'_>)>) -> Result<Map<String, Value>, Memory>
    ensures { IfOk result (λ m. entries_view m.entries ≡ members_view members.now.items) }
{
    let mut entries = Map::new(alloc);
    for member in members {
        let name = String::from_str(alloc, member.0)?;
        drop(entries.insert(name, value_of(alloc, &member.1)?)?);
    }
    Ok(entries)
}
