//! What a request is answered that is refused: what is refused, and why.
ghost use Rattle.std.specs.Prelude.{ℕ, List, Result, IfOk};
ghost use Rattle.contract.specs.Collections.Answers.{AsideBy};
ghost use Rattle.json_tree.specs.View.{view};
ghost use Rattle.request_reasons.specs.RequestParts.PartsSupport.{AllFit};
ghost use Rattle.request_reasons.specs.RequestParts.declared.refusal.Refusal.{Refusal};
ghost use Rattle.request_answers.specs.Reasoned.{AnsweredSo, MayTell, OutcomesSo, RefusedSo};

use contract::Memory;
use json_tree::Json;
use marlowe_trace::{Readable, TraceFault};
use request_reasons::{
    Definitions, Kind, Refusal, ok_answer, reasoned_answer, reasons, traced_answer,
};
use std::alloc::{AllocError, Global};

// Why a request is refused; nothing where there is no memory to look for it.
#[tactic(auto, using(crate::proofs::ReasonLemmas::may_steps))]
fn reason_of(
    alloc: Global,
    readable: Readable,
    definitions: &Definitions,
    kind: Kind,
    body: &Json<'_>,
) -> Vec<u8>
    requires { AllFit (view body.now) }
    ensures { MayTell readable definitions.now kind (view body.now) result.items }
{
    match reasons(alloc, readable, definitions, kind, body) {
        Ok(reason) => reason,
        Err(_) => Vec::new(alloc),
    }
}

// .. if it is.
#[tactic(auto, using(crate::proofs::ReasonLemmas::may_steps))]
fn reason_if(
    alloc: Global,
    readable: Readable,
    definitions: &Definitions,
    kind: Kind,
    body: &Json<'_>,
    is_refused: bool,
) -> Vec<u8>
    requires { AllFit (view body.now) }
    ensures { MayTell readable definitions.now kind (view body.now) result.items }
{
    if is_refused {
        reason_of(alloc, readable, definitions, kind, body)
    } else {
        Vec::new(alloc)
    }
}

/// The answer to a request that is refused: what, and why, if memory allows to look for it.
#[tactic(auto, using(crate::proofs::ReasonLemmas::reason_steps))]
pub fn refused(
    alloc: Global,
    readable: Readable,
    definitions: &Definitions,
    kind: Kind,
    body: &Json<'_>,
    id: &[u8],
    refusal: Refusal,
) -> Result<Vec<u8>, Memory>
    requires { AllFit (view body.now) }
    ensures { IfOk result (λ line. RefusedSo readable definitions.now kind (view body.now) id.now refusal line.items) }
{
    let reason = reason_of(alloc, readable, definitions, kind, body);
    reasoned_answer(alloc, id, refusal, reason.as_slice())
}

// The answer to a request that tells this, or is refused.
#[tactic(auto, using(crate::proofs::ReasonLemmas::reason_steps))]
pub(crate) fn told_answer(
    alloc: Global,
    readable: Readable,
    definitions: &Definitions,
    kind: Kind,
    body: &Json<'_>,
    id: &[u8],
    told: Result<Vec<u8>, Refusal>,
) -> Result<Vec<u8>, Memory>
    requires { AllFit (view body.now) }
    ensures { (answer : Result (List ℕ) Refusal) → AsideBy Refusal.Memory (λ text. text.items) told answer
        → IfOk result (λ line. AnsweredSo readable definitions.now kind (view body.now) id.now answer line.items) }
{
    match told {
        Ok(text) => ok_answer(alloc, id, text.as_slice()),
        Err(Refusal::Memory) => Err(AllocError),
        Err(refusal) => refused(alloc, readable, definitions, kind, body, id, refusal),
    }
}

// The answer to a trace of these outcomes, of which the next transaction may be refused.
#[tactic(auto, using(crate::proofs::ReasonLemmas::reason_steps))]
pub(crate) fn outcomes_answer(
    alloc: Global,
    readable: Readable,
    definitions: &Definitions,
    body: &Json<'_>,
    id: &[u8],
    lines: &[u8],
    fault: Option<TraceFault>,
) -> Result<Vec<u8>, Memory>
    requires { AllFit (view body.now) }
    ensures { IfOk result (λ line. OutcomesSo readable definitions.now (view body.now) id.now lines.now fault line.items) }
{
    let is_refused = fault.is_some();
    let reason = reason_if(alloc, readable, definitions, Kind::Trace, body, is_refused);
    traced_answer(alloc, id, lines, fault, reason.as_slice())
}
