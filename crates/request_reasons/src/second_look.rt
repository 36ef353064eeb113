//! A second look at a request.
ghost use Rattle.std.specs.Prelude.{IfOk};
ghost use Rattle.json_tree.specs.View.{view};
ghost use Rattle.request_parts.specs.PartsSupport.{AllFit};
ghost use Rattle.requests.specs.Requests.{sole_member};
ghost use Rattle.serde_json.specs.View.{view as value_view};
ghost use Rattle.request_reasons.specs.Reasons.{TellsDefinition, TellsReason, TellsValue, encodable_parts, readable_parts};
ghost use Rattle.requests.specs.declared.kind.Kind.TheVariants as kinds;

use crate::behind::contract_told;
use crate::parts::{part_told, told_at_key};
use crate::values::{encodable_told, readable_told};
use contract::Memory;
use definitions::Definitions;
use json_tree::Json;
use refusal_reasons::{Readable, Sort, beside_dropped, has};
use requests::{Kind, sole_member, value_of};
use serde_json::Value;
use std::alloc::Global;

/// Why a request is refused, where these contracts have names: what stands behind `of` and `name` of its refusal. `Memory` where memory was
/// refused. There are no bytes where nothing is refused, where there is nothing to tell, and of a play.
pub fn reasons(
    alloc: Global,
    readable: Readable,
    definitions: &Definitions,
    kind: Kind,
    body: &Json<'_>,
) -> Result<Vec<u8>, Memory>
    requires { AllFit (view body.now) }
    ensures { IfOk result (λ written. TellsReason readable definitions.now kind (view body.now) written.items) }
{
    match kind {
        Kind::Read => read_told(alloc, readable, definitions, body),
        Kind::Bytes => bytes_told(alloc, readable, definitions, body),
        Kind::Define => definition_told(alloc, body),
        Kind::Forget => part_told(alloc, Sort::Text, body),
        Kind::Play => Ok(Vec::new(alloc)),
        _ => contract_told(alloc, readable, definitions, kind, body),
    }
}

// Why a value isn't read.
fn read_told(
    alloc: Global,
    readable: Readable,
    definitions: &Definitions,
    body: &Json<'_>,
) -> Result<Vec<u8>, Memory>
    requires { AllFit (view body.now) }
    ensures { IfOk result (λ written. TellsValue readable definitions.now kinds.Read (view body.now)
        (readable_parts readable (view body.now)) written.items) }
{
    if has(body, "contract") {
        contract_told(alloc, readable, definitions, Kind::Read, body)
    } else {
        readable_told(alloc, readable, body)
    }
}

// Why a value isn't encoded.
fn bytes_told(
    alloc: Global,
    readable: Readable,
    definitions: &Definitions,
    body: &Json<'_>,
) -> Result<Vec<u8>, Memory>
    requires { AllFit (view body.now) }
    ensures { IfOk result (λ written. TellsValue readable definitions.now kinds.Bytes (view body.now)
        (encodable_parts readable (view body.now)) written.items) }
{
    if has(body, "contract") {
        contract_told(alloc, readable, definitions, Kind::Bytes, body)
    } else {
        encodable_told(alloc, readable, body)
    }
}

// Why a contract gets no name.
fn definition_told(alloc: Global, body: &Json<'_>) -> Result<Vec<u8>, Memory>
    ensures { IfOk result (λ written. TellsDefinition (view body.now) (sole_member (view body.now)) written.items) }
{
    let value = value_of(alloc, body)?;
    let written = named_told(alloc, &value, body);
    beside_dropped(value, written)
}

// .. of an object that has this value too.
fn named_told(alloc: Global, value: &Value, body: &Json<'_>) -> Result<Vec<u8>, Memory>
    ensures { IfOk result (λ written. TellsDefinition (view body.now) (sole_member (value_view value.now)) written.items) }
{
    match sole_member(value) {
        Some((name, _)) => told_at_key(alloc, Sort::Contract, name, body),
        None => Ok(Vec::new(alloc)),
    }
}
