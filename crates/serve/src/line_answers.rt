//! The answer to a line.
ghost use Rattle.std.specs.Prelude.{◌≡◌, ◌<◌, ◌^◌, IfOk, OnErr};
ghost use Rattle.json_tree.specs.View.{view};
ghost use Rattle.serve.specs.Answers.{AnswersAsked, IsAnswer, IsAnswerOf, IsAnswerWith, IsTooLongAnswer};
ghost use Rattle.request_answers.specs.RequestReasons.RequestParts.PartsSupport.{AllFit};

use crate::defining::{define, forget};
use contract::Memory;
use json::Scratch;
use json_tree::Json;
use request_answers::{
    Definitions, Kind, LineFault, NoPlayer, Player, Readable, Refusal, analysis_answer,
    beside_dropped, bytes_answer, id_text, is_object, line_json, next_answer, play_answer,
    read_answer, refused_answer, request, run_answer, table_answer, trace_answer,
    what_is_read_of_parts_can_be_written,
};
use std::alloc::{AllocError, Global};

/// The answer to a line of this number, from 1, where these contracts have names: a JSON object with the line's `id`, and `ok` with
/// what is told, or `refused`; and a line feed. Only `define` and `forget` change the names, and where one is refused, they stay. Where
/// memory is refused, they stay as well. Nothing is played.
pub fn answer(
    alloc: Global,
    readable: Readable,
    definitions: &mut Definitions,
    number: u64,
    line: &[u8],
) -> Result<Vec<u8>, Memory>
    requires { readable.depth < 2 ^ 63 }
    ensures answer { IfOk result (λ text. IsAnswer readable definitions.old number line.now text.items definitions.new) }
    ensures err { OnErr result (definitions.new ≡ definitions.old) }
{
    answer_with(alloc, &NoPlayer, readable, definitions, number, line)
}

/// The same, where a player plays the scenarios.
#[tactic(auto, using(crate::proofs::AnswerLemmas::line_steps))]
pub fn answer_with<P: Player>(
    alloc: Global,
    player: &P,
    readable: Readable,
    definitions: &mut Definitions,
    number: u64,
    line: &[u8],
) -> Result<Vec<u8>, Memory>
    requires depth { readable.depth < 2 ^ 63 }
    requires may { P.may player.now }
    ensures answer { IfOk result (λ text. IsAnswerWith P.tells readable definitions.old number line.now text.items definitions.new) }
    ensures err { OnErr result (definitions.new ≡ definitions.old) }
{
    // touch: contracts that are read can be written
    what_is_read_of_parts_can_be_written();
    let mut scratch = Scratch::new(alloc);
    match line_json(alloc, line, &mut scratch, readable.depth) {
        Ok(json) => {
            let bytes = line.len();
            let text = answer_of(alloc, player, readable, definitions, number, bytes, &json);
            beside_dropped(json, text)
        }
        Err(json_tree::Refusal::NotJson) => {
            let id = id_text(alloc, None)?;
            refused_answer(alloc, &id, Refusal::Line(LineFault::NotJson, number))
        }
        Err(json_tree::Refusal::Memory) => Err(AllocError),
    }
}

/// The answer to a line of more than 4 MiB, by its number.
#[tactic(auto, using(crate::proofs::AnswerLemmas::line_steps))]
pub fn answer_too_long(alloc: Global, number: u64) -> Result<Vec<u8>, Memory>
    ensures { IfOk result (λ text. IsTooLongAnswer number text.items) }
{
    let id = id_text(alloc, None)?;
    refused_answer(alloc, &id, Refusal::Line(LineFault::TooLong, number))
}

// The answer to a line that has this JSON value, of so many bytes.
#[tactic(auto, using(crate::proofs::AnswerLemmas::value_steps))]
fn answer_of<P: Player>(
    alloc: Global,
    player: &P,
    readable: Readable,
    definitions: &mut Definitions,
    number: u64,
    bytes: usize,
    json: &Json<'_>,
) -> Result<Vec<u8>, Memory>
    requires fits { AllFit (view json.now) }
    requires may { P.may player.now }
    ensures answer { IfOk result (λ text. IsAnswerOf P.tells readable definitions.old number bytes (view json.now) text.items definitions.new) }
    ensures err { OnErr result (definitions.new ≡ definitions.old) }
{
    let id = id_text(alloc, Some(json))?;
    if !is_object(json) {
        return refused_answer(alloc, &id, Refusal::Line(LineFault::NoObject, number));
    }
    match request(json) {
        Some((kind, body)) => {
            request_answer(
                alloc,
                player,
                readable,
                definitions,
                bytes,
                kind,
                body,
                id.as_slice(),
            )
        }
        None => refused_answer(alloc, &id, Refusal::Line(LineFault::NoRequest, number)),
    }
}

// The answer to a request.
#[tactic(auto, using(crate::proofs::AskedLemmas::asked_steps))]
fn request_answer<P: Player>(
    alloc: Global,
    player: &P,
    readable: Readable,
    definitions: &mut Definitions,
    bytes: usize,
    kind: Kind,
    body: &Json<'_>,
    id: &[u8],
) -> Result<Vec<u8>, Memory>
    requires fits { AllFit (view body.now) }
    requires may { P.may player.now }
    ensures answer { IfOk result (λ text. AnswersAsked P.tells readable definitions.old bytes kind (view body.now) id.now text.items definitions.new) }
    ensures err { OnErr result (definitions.new ≡ definitions.old) }
{
    match kind {
        Kind::Run => run_answer(alloc, readable, definitions, body, id),
        Kind::Trace => trace_answer(alloc, readable, definitions, body, id),
        Kind::Next => next_answer(alloc, readable, definitions, body, id),
        Kind::Table => table_answer(alloc, readable, definitions, body, id),
        Kind::Analyse => analysis_answer(alloc, readable, definitions, bytes, body, id),
        Kind::Read => read_answer(alloc, readable, definitions, body, id),
        Kind::Define => define(alloc, readable, definitions, bytes, body, id),
        Kind::Forget => forget(alloc, readable, definitions, body, id),
        Kind::Bytes => bytes_answer(alloc, readable, definitions, body, id),
        Kind::Play => play_answer(alloc, player, body, id),
    }
}
