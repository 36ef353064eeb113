//! Values that are read or encoded by themselves.
ghost use Rattle.std.specs.Prelude.{◌≡◌, IfOk};
ghost use Rattle.json_tree.specs.View.{view};
ghost use Rattle.request_reasons.specs.Reasons.{TellsFirst, encodable_parts, readable_parts, state_sort};

use crate::parts::part_told;
use contract::Memory;
use json_tree::{Json, JsonValue};
use refusal_reasons::{Numbers, Readable, Sort};
use std::alloc::Global;

/// As what a state is told of. A number of it may also be a text of its digits.
pub(crate) fn state_sort(texts: bool) -> Sort
    ensures { result ≡ state_sort texts }
{
    if texts {
        Sort::State(Numbers::OrTexts)
    } else {
        Sort::State(Numbers::Whole)
    }
}

/// Why a state, a transaction or an input isn't read: the first of them that is there.
pub(crate) fn readable_told(
    alloc: Global,
    readable: Readable,
    body: &Json<'_>,
) -> Result<Vec<u8>, Memory>
    ensures { IfOk result (λ written. TellsFirst (readable_parts readable (view body.now)) written.items) }
{
    if let Some(json) = body.member("state") {
        return part_told(alloc, state_sort(readable.text_numbers), json);
    }
    if let Some(json) = body.member("transaction") {
        return part_told(alloc, Sort::Transaction, json);
    }
    if let Some(json) = body.member("input") {
        return part_told(alloc, Sort::Input, json);
    }
    Ok(Vec::new(alloc))
}

/// Why a state, an input, a party or a token isn't read: the first of them that is there.
pub(crate) fn encodable_told(
    alloc: Global,
    readable: Readable,
    body: &Json<'_>,
) -> Result<Vec<u8>, Memory>
    ensures { IfOk result (λ written. TellsFirst (encodable_parts readable (view body.now)) written.items) }
{
    if let Some(json) = body.member("state") {
        return part_told(alloc, state_sort(readable.text_numbers), json);
    }
    if let Some(json) = body.member("input") {
        return part_told(alloc, Sort::Input, json);
    }
    if let Some(json) = body.member("party") {
        return part_told(alloc, Sort::Party, json);
    }
    if let Some(json) = body.member("token") {
        return part_told(alloc, Sort::Token, json);
    }
    Ok(Vec::new(alloc))
}
