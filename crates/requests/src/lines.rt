//! The JSON value of a line.
ghost use Rattle.std.specs.Prelude.{◌≡◌, ◌+◌, ◌<◌, ◌^◌, Some, IfOk};
ghost use Rattle.collections.specs.Answers.{AsideBy};
ghost use Rattle.json_tree.specs.View.{view, read_within};
ghost use Rattle.json_tree.specs.declared.read.Refusal.{Refusal};
ghost use Rattle.requests.specs.Requests.{line_json};

use json::Scratch;
use json_tree::{Json, Refusal, from_slice_within};
use std::alloc::Global;

/// The JSON value of a line, of any length. Its lists and objects nest two levels deeper than `depth`: what stands in a request is no
/// deeper then than in a text of its own.
#[tactic(auto, using(crate::proofs::LineLemmas::line_steps))]
pub fn line_json<'a>(
    alloc: Global,
    line: &'a [u8],
    scratch: &'a mut Scratch,
    depth: usize,
) -> Result<Json<'a>, Refusal>
    requires { depth < 2 ^ 63 }
    ensures reading { AsideBy Refusal.Memory view result (line_json depth line.now) }
    ensures within { IfOk result (λ j. read_within (depth + 2) line.now ≡ Some (view j)) }
{
    match from_slice_within(alloc, line, scratch, depth + 2) {
        Ok(json) => Ok(json),
        Err(Refusal::NotJson) => Err(Refusal::NotJson),
        Err(Refusal::Memory) => Err(Refusal::Memory),
    }
}
