//! What each kind of request is answered under an id. Of each, `Memory` is answered where memory was refused, and nothing else is
//! changed.
ghost use Rattle.std.specs.Prelude.{◌≡◌, ◌++◌, codes, Err, IfOk};
ghost use Rattle.json_tree.specs.View.{view};
ghost use Rattle.request_reasons.specs.RequestParts.Answered.{begun};
ghost use Rattle.request_answers.specs.Asking.{TellsAnalysis, TellsNext};
ghost use Rattle.request_answers.specs.Commands.{run_told, table_told, trace_told};
ghost use Rattle.request_answers.specs.Encoding.{bytes_told};
ghost use Rattle.request_answers.specs.Playing.{AnswersPlay, answer_seen, played_answer};
ghost use Rattle.request_answers.specs.Reading.{read_told};
ghost use Rattle.request_answers.specs.Reasoned.{AnsweredSo, AnswersBy, MayTell, TracedSo, WithReason};
ghost use Rattle.request_reasons.specs.RequestParts.PartsSupport.{AllFit};
ghost use Rattle.request_reasons.specs.Requests.declared.kind.Kind.TheVariants as kinds;

use crate::analysing::analysis;
use crate::asking::next;
use crate::commands::{run, table, trace};
use crate::encoding::bytes as encoding;
use crate::player::{PlayAnswer, Player};
use crate::reading::read;
use crate::refusing::{outcomes_answer, refused, told_answer};
use contract::Memory;
use json_tree::Json;
use marlowe_trace::Readable;
use refusal_objects::refused_object;
use request_reasons::{Definitions, Kind, Refusal, ok_answer, traced_answer};
use std::alloc::{AllocError, Global};

/// The answer to a `run`: the outcome of one transaction, or why it is refused.
pub fn run_answer(
    alloc: Global,
    readable: Readable,
    definitions: &Definitions,
    body: &Json<'_>,
    id: &[u8],
) -> Result<Vec<u8>, Memory>
    requires { AllFit (view body.now) }
    ensures { IfOk result (λ text. AnsweredSo readable definitions.now kinds.Run (view body.now) id.now
        (run_told readable.text_numbers definitions.now (view body.now)) text.items) }
{
    let told = run(alloc, readable.text_numbers, definitions, body);
    told_answer(alloc, readable, definitions, Kind::Run, body, id, told)
}

/// The answer to a `table`: a contract's table, or why there is none.
pub fn table_answer(
    alloc: Global,
    readable: Readable,
    definitions: &Definitions,
    body: &Json<'_>,
    id: &[u8],
) -> Result<Vec<u8>, Memory>
    requires { AllFit (view body.now) }
    ensures { IfOk result (λ text. AnsweredSo readable definitions.now kinds.Table (view body.now) id.now
        (table_told definitions.now (view body.now)) text.items) }
{
    let told = table(alloc, definitions, body);
    told_answer(alloc, readable, definitions, Kind::Table, body, id, told)
}

/// The answer to a `read`: the value as it is written, or why it is none.
pub fn read_answer(
    alloc: Global,
    readable: Readable,
    definitions: &Definitions,
    body: &Json<'_>,
    id: &[u8],
) -> Result<Vec<u8>, Memory>
    requires { AllFit (view body.now) }
    ensures { IfOk result (λ text. AnsweredSo readable definitions.now kinds.Read (view body.now) id.now
        (read_told readable.text_numbers definitions.now (view body.now)) text.items) }
{
    let told = read(alloc, readable.text_numbers, definitions, body);
    told_answer(alloc, readable, definitions, Kind::Read, body, id, told)
}

/// The answer to a `bytes`: the encoding of a value, or why it is none.
pub fn bytes_answer(
    alloc: Global,
    readable: Readable,
    definitions: &Definitions,
    body: &Json<'_>,
    id: &[u8],
) -> Result<Vec<u8>, Memory>
    requires { AllFit (view body.now) }
    ensures { IfOk result (λ text. AnsweredSo readable definitions.now kinds.Bytes (view body.now) id.now
        (bytes_told readable.text_numbers definitions.now (view body.now)) text.items) }
{
    let told = encoding(alloc, readable.text_numbers, definitions, body);
    told_answer(alloc, readable, definitions, Kind::Bytes, body, id, told)
}

/// The answer to a `next`: what can be done next.
#[tactic(auto, using(crate::proofs::AskingLemmas::by_steps))]
pub fn next_answer(
    alloc: Global,
    readable: Readable,
    definitions: &Definitions,
    body: &Json<'_>,
    id: &[u8],
) -> Result<Vec<u8>, Memory>
    requires { AllFit (view body.now) }
    ensures { IfOk result (λ text. WithReason (MayTell readable definitions.now kinds.Next (view body.now))
        (AnswersBy (TellsNext readable definitions.now (view body.now)) id.now text.items)) }
{
    match next(alloc, readable, definitions, body) {
        Ok(text) => ok_answer(alloc, id, text.as_slice()),
        Err(Refusal::Memory) => Err(AllocError),
        Err(refusal) => refused(alloc, readable, definitions, Kind::Next, body, id, refusal),
    }
}

/// The answer to an `analyse`: what a contract can warn of and pay. `bytes` is the length of its line.
#[tactic(auto, using(crate::proofs::AskingLemmas::by_steps))]
pub fn analysis_answer(
    alloc: Global,
    readable: Readable,
    definitions: &Definitions,
    bytes: usize,
    body: &Json<'_>,
    id: &[u8],
) -> Result<Vec<u8>, Memory>
    requires { AllFit (view body.now) }
    ensures { IfOk result (λ text. WithReason (MayTell readable definitions.now kinds.Analyse (view body.now))
        (AnswersBy (TellsAnalysis readable.text_numbers definitions.now (view body.now)) id.now text.items)) }
{
    match analysis(alloc, readable.text_numbers, definitions, bytes, body) {
        Ok(text) => ok_answer(alloc, id, text.as_slice()),
        Err(Refusal::Memory) => Err(AllocError),
        Err(refusal) => refused(
            alloc,
            readable,
            definitions,
            Kind::Analyse,
            body,
            id,
            refusal,
        ),
    }
}

/// The answer to a `trace`: the outcomes of transactions one after another, and the first that is refused.
#[tactic(auto, using(crate::proofs::ReasonLemmas::trace_steps))]
pub fn trace_answer(
    alloc: Global,
    readable: Readable,
    definitions: &Definitions,
    body: &Json<'_>,
    id: &[u8],
) -> Result<Vec<u8>, Memory>
    requires { AllFit (view body.now) }
    ensures { IfOk result (λ text. TracedSo readable definitions.now (view body.now) id.now
        (trace_told readable.text_numbers definitions.now (view body.now)) text.items) }
{
    match trace(alloc, readable.text_numbers, definitions, body) {
        Ok(told) => outcomes_answer(
            alloc,
            readable,
            definitions,
            body,
            id,
            told.text.as_slice(),
            told.refused,
        ),
        Err(Refusal::Memory) => Err(AllocError),
        Err(refusal) => refused(alloc, readable, definitions, Kind::Trace, body, id, refusal),
    }
}

/// The answer to a `play`, as a player tells it.
#[tactic(auto, using(crate::proofs::AskingLemmas::plays_so))]
pub fn play_answer<P: Player>(
    alloc: Global,
    player: &P,
    body: &Json<'_>,
    id: &[u8],
) -> Result<Vec<u8>, Memory>
    requires { P.may player.now }
    ensures { IfOk result (λ text. AnswersPlay (P.tells (view body.now)) id.now text.items) }
{
    let answer = player.play(alloc, body)?;
    played_answer(alloc, &answer, id)
}

// The line of a play's answer.
fn played_answer(alloc: Global, answer: &PlayAnswer, id: &[u8]) -> Result<Vec<u8>, Memory>
    ensures { IfOk result (λ text. text.items ≡ played_answer id.now (answer_seen answer.now)) }
{
    match answer {
        PlayAnswer::Told(lines) => traced_answer(alloc, id, lines.as_slice(), None, b""),
        PlayAnswer::Refused(members, told) => {
            refused_play(alloc, id, members.as_slice(), told.as_slice())
        }
    }
}

// Why nothing is played.
fn refused_play(alloc: Global, id: &[u8], members: &[u8], told: &[u8]) -> Result<Vec<u8>, Memory>
    ensures { IfOk result (λ text. text.items ≡ played_answer id.now (Err (members.now, told.now))) }
{
    let object = refused_object(alloc, members, told)?;
    let mut line = Vec::from_slice(alloc, b"{\"id\":")?;
    line.extend_from_slice(id)?;
    line.extend_from_slice(b",\"refused\":")?;
    line.extend_from_slice(object.as_slice())?;
    line.extend_from_slice(b"}\n")?;
    Ok(line)
}
