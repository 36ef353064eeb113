//! An object of one member.
ghost use Rattle.std.specs.Prelude.{◌≡◌, option_map};
ghost use Rattle.serde_json.specs.View.{view, members_view};
ghost use Rattle.requests.specs.Requests.{sole_member, sole_of};

use serde_json::{Map, Value};

/// The key of an object's only member, and what stands there; nothing where it has none, or several, or is no object.
pub fn sole_member(value: &Value) -> Option<(&str, &Value)>
    ensures { option_map (λ m. (m.0.now, view m.1.now)) result ≡ sole_member (view value.now) }
{
    match value {
        Value::Object(members) => sole_entry(members),
        _ => None,
    }
}

fn sole_entry(members: &Map<String, Value>) -> Option<(&str, &Value)>
    ensures { option_map (λ m. (m.0.now, view m.1.now)) result ≡ sole_of (members_view members.now.entries) }
{
    if members.len() != 1 {
        return None;
    }
    match members.first_key_value() {
        Some((key, value)) => Some((key.as_str(), value)),
        None => None,
    }
}
