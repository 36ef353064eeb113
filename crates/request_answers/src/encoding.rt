//! The one encoding of what stands in a request, and its digest.
ghost use Rattle.std.specs.Prelude.{◌≡◌, IfOk};
ghost use Rattle.contract.specs.Collections.Answers.{AsideBy};
ghost use Rattle.contract.specs.Tree.{contract_tree};
ghost use Rattle.json_tree.specs.View.{view};
ghost use Rattle.request_answers.specs.Encoding.{bytes_object, bytes_told, contract_encoded, encoded, script_bytes};
ghost use Rattle.request_reasons.specs.RequestParts.PartsSupport.{AllFit};

use contract::{Contract, Memory};
use contract_bytes::{
    encode_contract, encode_input, encode_party, encode_state, encode_token, put_bytes,
};
use json_tree::{Json, JsonValue};
use marlowe_trace::{JsonFault, beside_dropped, read_bytes};
use request_reasons::{
    Definitions, Part, Refusal, contract_at, input_at, party_at, state_at, token_at,
};
use sha2::{Digest, Sha256};
use std::alloc::Global;

// The encoding of a contract, a state, an input, a party or a token, and its digest. Of several keys the first counts.
pub(crate) fn bytes(
    alloc: Global,
    texts: bool,
    definitions: &Definitions,
    body: &Json<'_>,
) -> Result<Vec<u8>, Refusal>
    requires { AllFit (view body.now) }
    ensures { AsideBy Refusal.Memory (λ text. text.items) result (bytes_told texts definitions.now (view body.now)) }
{
    let encoding = encoded(alloc, texts, definitions, body)?;
    let object = bytes_object(alloc, encoding.as_slice())?;
    Ok(object)
}

fn encoded(
    alloc: Global,
    texts: bool,
    definitions: &Definitions,
    body: &Json<'_>,
) -> Result<Vec<u8>, Refusal>
    requires { AllFit (view body.now) }
    ensures { AsideBy Refusal.Memory (λ text. text.items) result (encoded texts definitions.now (view body.now)) }
{
    if body.member("contract").is_some() {
        return contract_encoded(alloc, definitions, body);
    }
    if body.member("state").is_some() {
        return Ok(encode_state(alloc, &state_at(alloc, texts, body)?)?);
    }
    if body.member("input").is_some() {
        return Ok(encode_input(alloc, &input_at(alloc, body)?)?);
    }
    if body.member("party").is_some() {
        return Ok(encode_party(alloc, &party_at(alloc, body)?)?);
    }
    if body.member("token").is_some() {
        return Ok(encode_token(alloc, &token_at(alloc, body)?)?);
    }
    Err(Refusal::Part(Part::Bytes, JsonFault::NoForm))
}

fn contract_encoded(
    alloc: Global,
    definitions: &Definitions,
    body: &Json<'_>,
) -> Result<Vec<u8>, Refusal>
    requires { AllFit (view body.now) }
    ensures { AsideBy Refusal.Memory (λ text. text.items) result (contract_encoded definitions.now (view body.now)) }
{
    let given = contract_at(alloc, definitions, body)?;
    let encoding = script_bytes(alloc, given.contract(), body);
    beside_dropped(given, encoding)
}

// The encoding of a contract, and behind it that of a currency, where one is given.
fn script_bytes(alloc: Global, contract: &Contract, body: &Json<'_>) -> Result<Vec<u8>, Refusal>
    ensures { AsideBy Refusal.Memory (λ text. text.items) result (script_bytes (contract_tree contract.now) (view body.now)) }
{
    let mut encoding = encode_contract(alloc, contract)?;
    let Some(json) = body.member("currency") else {
        return Ok(encoding);
    };
    match read_bytes(alloc, json) {
        Ok(currency) => {
            put_bytes(&mut encoding, &currency)?;
            Ok(encoding)
        }
        Err(fault) => Err(Refusal::of_part(Part::Currency, fault)),
    }
}

// The object of an encoding and its digest, in lower-case hexadecimal.
fn bytes_object(alloc: Global, encoding: &[u8]) -> Result<Vec<u8>, Memory>
    ensures { IfOk result (λ text. text.items ≡ bytes_object encoding.now) }
{
    let digits = hex::encode(alloc, encoding)?;
    let id = Sha256::digest(encoding);
    let id = hex::encode(alloc, id.as_slice())?;
    let object = format!(in alloc; "{{\"bytes\":\"{digits}\",\"id\":\"{id}\"}}")?;
    Ok(object.into_bytes())
}
