//! Names that come and go.
ghost use Rattle.std.specs.Prelude.{◌≡◌, IfOk, OnErr};
ghost use Rattle.json_tree.specs.View.{view};
ghost use Rattle.serde_json.specs.Find.{as_str};
ghost use Rattle.request_answers.specs.Definition.{definition_told};
ghost use Rattle.serve.specs.Defining.{Changes, Forgets, TakesAway};
ghost use Rattle.request_answers.specs.RequestReasons.RequestParts.PartsSupport.{AllFit};
ghost use Rattle.request_answers.specs.RequestReasons.Requests.declared.kind.Kind.TheVariants as kinds;
ghost use Rattle.request_answers.specs.Reasoned.{MayTell, WithReason};

use contract::Memory;
use json_tree::{Json, JsonValue};
use request_answers::{
    DefineFault, Definitions, JsonFault, Kind, Part, Readable, Refusal, definition_at, ok_answer,
    refused, refused_answer,
};
use std::alloc::{AllocError, Global};

// Names a contract, of a line of so many bytes. Where it is refused, nothing is changed.
#[tactic(auto, using(crate::proofs::AnswerLemmas::define_steps))]
pub(crate) fn define(
    alloc: Global,
    readable: Readable,
    definitions: &mut Definitions,
    bytes: usize,
    body: &Json<'_>,
    id: &[u8],
) -> Result<Vec<u8>, Memory>
    requires { AllFit (view body.now) }
    ensures answer { IfOk result (λ text. WithReason (MayTell readable definitions.old kinds.Define (view body.now))
        (Changes bytes definitions.old id.now (definition_told (view body.now)) text.items definitions.new)) }
    ensures err { OnErr result (definitions.new ≡ definitions.old) }
{
    let answer = ok_answer(alloc, id, b"true")?;
    match definition_at(alloc, bytes, body) {
        Ok(definition) => match definitions.define(definition) {
            Ok(()) => Ok(answer),
            Err(DefineFault::Full) => refused_answer(alloc, id, Refusal::Full),
            Err(DefineFault::Memory) => Err(AllocError),
        },
        Err(Refusal::Memory) => Err(AllocError),
        Err(refusal) => refused(
            alloc,
            readable,
            definitions,
            Kind::Define,
            body,
            id,
            refusal,
        ),
    }
}

// Takes a name away, and tells whether it was there.
#[tactic(auto, using(crate::proofs::AnswerLemmas::forget_steps))]
pub(crate) fn forget(
    alloc: Global,
    readable: Readable,
    definitions: &mut Definitions,
    body: &Json<'_>,
    id: &[u8],
) -> Result<Vec<u8>, Memory>
    requires { AllFit (view body.now) }
    ensures answer { IfOk result (λ text. WithReason (MayTell readable definitions.old kinds.Forget (view body.now))
        (Forgets definitions.old id.now (as_str (view body.now)) text.items definitions.new)) }
    ensures err { OnErr result (definitions.new ≡ definitions.old) }
{
    match body.text() {
        Some(name) => taken_away(alloc, definitions, name, id),
        None => {
            let refusal = Refusal::Part(Part::Forget, JsonFault::NoForm);
            refused(
                alloc,
                readable,
                definitions,
                Kind::Forget,
                body,
                id,
                refusal,
            )
        }
    }
}

// Takes this name away.
fn taken_away(
    alloc: Global,
    definitions: &mut Definitions,
    name: &str,
    id: &[u8],
) -> Result<Vec<u8>, Memory>
    ensures answer { IfOk result (λ text. TakesAway definitions.old id.now name.now text.items definitions.new) }
    ensures err { OnErr result (definitions.new ≡ definitions.old) }
{
    let answer = if definitions.contract(name).is_some() {
        ok_answer(alloc, id, b"true")?
    } else {
        ok_answer(alloc, id, b"false")?
    };
    let _ = definitions.forget(name);
    Ok(answer)
}
