//! From a text to its JSON value.
ghost use Rattle.std.specs.Prelude.{Ok};
ghost use Rattle.names.specs.Collections.Answers.{AsideBy};
ghost use Rattle.json_tree.specs.View.{view};
ghost use Rattle.json_read_names.specs.ReadsText.{json_of, json_within};

use crate::fault::JsonFault;
use json::Scratch;
use json_tree::{Json, Refusal, from_slice, from_slice_within};
use std::alloc::Global;

// The longest text that is read, in bytes.
const MAX_LEN: usize = 1_048_576;

/// The JSON value of a text of at most 1,048,576 bytes. Its texts are borrowed, from the text where they have no
/// escape, and else from `scratch`.
#[tactic(auto, using(crate::proofs::TextLaws::text_steps))]
pub fn json_of<'a>(
    alloc: Global,
    text: &'a [u8],
    scratch: &'a mut Scratch,
) -> Result<Json<'a>, JsonFault>
    ensures { AsideBy JsonFault.Memory view result (json_of text.now) }
{
    if text.len() > MAX_LEN {
        return Err(JsonFault::TooLong);
    }
    match from_slice(alloc, text, scratch) {
        Ok(json) => Ok(json),
        Err(Refusal::NotJson) => Err(JsonFault::NotJson),
        Err(Refusal::Memory) => Err(JsonFault::Memory),
    }
}

/// The same, where lists and objects nest no deeper than `depth`: `json_of` has 127.
#[tactic(auto, using(crate::proofs::TextLaws::deep_text_steps))]
pub fn json_within<'a>(
    alloc: Global,
    text: &'a [u8],
    scratch: &'a mut Scratch,
    depth: usize,
) -> Result<Json<'a>, JsonFault>
    ensures { AsideBy JsonFault.Memory view result (json_within depth text.now) }
{
    if text.len() > MAX_LEN {
        return Err(JsonFault::TooLong);
    }
    match from_slice_within(alloc, text, scratch, depth) {
        Ok(json) => Ok(json),
        Err(Refusal::NotJson) => Err(JsonFault::NotJson),
        Err(Refusal::Memory) => Err(JsonFault::Memory),
    }
}
