//! Whether two trees are the same.
ghost use Rattle.std.specs.Prelude.{◌≡◌, true};
ghost use Rattle.json.specs.Value.{items_view, members_view, value_view};

use json::Value;

/// Whether two trees are the same, members in the same order.
#[cycle(same)]
#[tactic(auto, using(crate::proofs::ViewLemmas::objects_same))]
pub(crate) fn same(old: &Value<'_>, new: &Value<'_>) -> bool
    ensures { result ≡ true → value_view new.now ≡ value_view old.now }
{
    match (old, new) {
        (Value::Null, Value::Null) => true,
        (Value::Bool(x), Value::Bool(y)) => *x == *y,
        (Value::Number(x), Value::Number(y)) => *x == *y,
        (Value::String(x), Value::String(y)) => *x == *y,
        (Value::Array(xs), Value::Array(ys)) => same_items(xs.as_slice(), ys.as_slice()),
        (Value::Object(xs), Value::Object(ys)) => same_members(xs.as_slice(), ys.as_slice()),
        _ => false,
    }
}

#[cycle(same)]
fn same_items(old: &[Value<'_>], new: &[Value<'_>]) -> bool
    ensures { result ≡ true → items_view new.now ≡ items_view old.now }
{
    if old.len() != new.len() {
        return false;
    }
    for (index, item) in old.iter().enumerate() {
        if !same(item, &new[index]) {
            return false;
        }
    }
    true
}

#[cycle(same)]
fn same_members(old: &[(&str, Value<'_>)], new: &[(&str, Value<'_>)]) -> bool
    ensures { result ≡ true → members_view new.now ≡ members_view old.now }
{
    if old.len() != new.len() {
        return false;
    }
    for (index, member) in old.iter().enumerate() {
        let other = &new[index];
        if member.0 != other.0 {
            return false;
        }
        if !same(&member.1, &other.1) {
            return false;
        }
    }
    true
}
