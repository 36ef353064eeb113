//! The id of a request.
ghost use Rattle.std.specs.Prelude.{IfOk, option_map};
ghost use Rattle.serde_json.specs.View.{view as value_view};
ghost use Rattle.json_tree.specs.View.{view};
ghost use Rattle.requests.specs.Ids.{SpellsId, id_of};

use crate::owned::value_of;
use collections::Memory;
use json_tree::{Json, JsonValue};
use serde_json::Value;
use std::alloc::Global;

/// The JSON text of a line's `id`: any value, `null` where there is none or the line has no JSON value.
pub fn id_text(alloc: Global, line: Option<&Json<'_>>) -> Result<Vec<u8>, Memory>
    ensures { IfOk result (λ text. SpellsId (id_of (option_map (λ json. view json.now) line.entry)) text.items) }
{
    match line {
        Some(json) => match json.member("id") {
            Some(id) => spelled(alloc, value_of(alloc, id)?),
            None => spelled(alloc, Value::Null),
        },
        None => spelled(alloc, Value::Null),
    }
}

// The text of a value.
fn spelled(alloc: Global, value: Value) -> Result<Vec<u8>, Memory>
    ensures { IfOk result (λ text. SpellsId (value_view value) text.items) }
{
    let text = value.to_string(alloc)?;
    Ok(text.into_bytes())
}
