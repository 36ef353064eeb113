//! Short values without a Cond, which are evaluated more than once.
use contract::Value;

// The most parts of a value that is plain: 32.
const MOST_PARTS: u32 = 32;

/// Whether a value has no Cond, and at most 32 parts: it may be evaluated again and again without costing much.
pub(crate) fn is_plain(value: &Value) -> bool {
    parts_left(value, MOST_PARTS + 1) > 0
}

// What is left of a number of parts behind a value's: 0 where it has as many, or a Cond.
#[cycle(parts)]
fn parts_left(value: &Value, parts: u32) -> u32 {
    if parts == 0 {
        return 0;
    }
    let rest = parts - 1;
    match value {
        Value::NegValue(a) => parts_left(a.get(), rest),
        Value::AddValue(a, b) => left_of_two(a.get(), b.get(), rest),
        Value::SubValue(a, b) => left_of_two(a.get(), b.get(), rest),
        Value::MulValue(a, b) => left_of_two(a.get(), b.get(), rest),
        Value::DivValue(a, b) => left_of_two(a.get(), b.get(), rest),
        Value::Cond(_, _, _) => 0,
        _ => rest,
    }
}

#[cycle(parts)]
fn left_of_two(left: &Value, right: &Value, parts: u32) -> u32 {
    let rest = parts_left(left, parts);
    parts_left(right, rest)
}
