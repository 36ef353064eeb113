//! Looking into a tree.
ghost use Rattle.std.specs.Prelude.{◌≡◌, option_map};
ghost use Rattle.serde_json.specs.Find.{get_member};
ghost use Rattle.json_tree.specs.View.{view, members_view};

use crate::json_value::JsonValue;
use crate::tree::Json;

impl<'a> JsonValue for Json<'a> {
    ghost json = { view };

    fn member(&self, name: &str) -> Option<&Json<'a>> {
        match self {
            Json::Object(members) => last_member(members, name),
            _ => None,
        }
    }

    fn truth(&self) -> Option<bool> {
        match self {
            Json::Bool(b) => Some(*b),
            _ => None,
        }
    }

    fn text(&self) -> Option<&str> {
        match self {
            Json::String(text) => Some(*text),
            _ => None,
        }
    }

    fn items(&self) -> Option<&[Json<'a>]> {
        match self {
            Json::Array(items) => Some(items.as_slice()),
            _ => None,
        }
    }

    fn is_number(&self) -> bool {
        match self {
            Json::Number(_) => true,
            _ => false,
        }
    }

    fn natural(&self) -> Option<u64> {
        match self {
            Json::Number(number) => number.as_u64(),
            _ => None,
        }
    }

    fn integer(&self) -> Option<i64> {
        match self {
            Json::Number(number) => number.as_i64(),
            _ => None,
        }
    }
}

// The last member of that name.
fn last_member<'j, 'a>(members: &'j Vec<(&'a str, Json<'a>)>, name: &str) -> Option<&'j Json<'a>>
    ensures { option_map (λ v. view v.now) result ≡ get_member name.now (members_view members.now.items) }
{
    let mut found = None;
    for member in members {
        if member.0 == name {
            found = Some(&member.1);
        }
    }
    found
}
