//! A contract that is to have a name.
ghost use Rattle.std.specs.Prelude.{◌≡◌, true, Ok, IfOk};
ghost use Rattle.contract.specs.Collections.Answers.{AsideBy};
ghost use Rattle.contract.specs.Tree.{contract_tree};
ghost use Rattle.json_tree.specs.View.{view};
ghost use Rattle.marlowe_trace.specs.JsonWriteContracts.WrittenContract.{contract_fits};
ghost use Rattle.serde_json.specs.View.{view as value_view};
ghost use Rattle.request_answers.specs.Definition.{definition_told, named_by, named_reading, named_so};
ghost use Rattle.marlowe_trace.specs.JsonReadContracts.ReadsContract.{contract};
ghost use Rattle.request_reasons.specs.RequestParts.PartsSupport.{AllFit};

use contract::{Contract, Text};
use json_tree::{Json, JsonValue};
use marlowe_trace::{JsonFault, RunFault, beside_dropped, contract_from_json};
use request_reasons::{Definition, Part, Refusal, sole_member, value_of};
use serde_json::Value;
use std::alloc::Global;

/// The definition in a request, of a line of so many bytes: its name and its contract, or why it has none.
pub fn definition_at(alloc: Global, bytes: usize, body: &Json<'_>) -> Result<Definition, Refusal>
    requires { AllFit (view body.now) }
    ensures told { AsideBy Refusal.Memory named_so result (definition_told (view body.now)) }
    ensures bytes { IfOk result (λ d. d.bytes ≡ bytes) }
{
    let value = value_of(alloc, body)?;
    let definition = definition(alloc, bytes, &value);
    beside_dropped(value, definition)
}

#[tactic(auto, using(request_parts::proofs::FitLaws::fit_steps))]
fn definition(alloc: Global, bytes: usize, value: &Value) -> Result<Definition, Refusal>
    requires { AllFit (value_view value.now) }
    ensures told { AsideBy Refusal.Memory named_so result (definition_told (value_view value.now)) }
    ensures bytes { IfOk result (λ d. d.bytes ≡ bytes) }
{
    let Some((name, _)) = sole_member(value) else {
        return Err(Refusal::Part(Part::Define, JsonFault::NoForm));
    };
    match value.member(name) {
        Some(json) => named_contract(alloc, bytes, name, json),
        None => Err(Refusal::from(RunFault::of_contract(JsonFault::NoForm))),
    }
}

// A contract by a name.
#[tactic(auto, using(request_parts::proofs::FitLaws::fit_steps))]
fn named_contract(
    alloc: Global,
    bytes: usize,
    name: &str,
    json: &Value,
) -> Result<Definition, Refusal>
    requires { AllFit (value_view json.now) }
    ensures told { AsideBy Refusal.Memory named_so result (named_reading name.now (contract (value_view json.now))) }
    ensures bytes { IfOk result (λ d. d.bytes ≡ bytes) }
{
    match contract_from_json(alloc, json) {
        Ok(contract) => defined(alloc, name, contract, bytes),
        Err(fault) => Err(Refusal::from(RunFault::of_contract(fault))),
    }
}

fn defined(
    alloc: Global,
    name: &str,
    contract: Contract,
    bytes: usize,
) -> Result<Definition, Refusal>
    requires { contract_fits (contract_tree contract) ≡ true }
    ensures told { AsideBy Refusal.Memory named_so result (Ok (named_by name.now contract)) }
    ensures bytes { IfOk result (λ d. d.bytes ≡ bytes) }
{
    let name = Text::from_string(String::from_str(alloc, name)?);
    Ok(Definition {
        name,
        contract,
        bytes,
    })
}
