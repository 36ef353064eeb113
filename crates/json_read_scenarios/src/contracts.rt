//! The contracts of a scenario as JSON values.
ghost use Rattle.std.specs.Prelude.{◌≡◌, None, IfOk};
ghost use Rattle.contract.specs.Collections.Answers.{Aside};
ghost use Rattle.json_read_names.specs.Parts.{reading_at};
ghost use Rattle.json_read_contracts.specs.ReadsContract.{contract};
ghost use Rattle.json_read_scenarios.specs.Names.{place_of};
ghost use Rattle.json_read_scenarios.specs.ReadsPlan.{contract_name};
ghost use Rattle.json_read_scenarios.specs.ReadsScenario as reads;

use crate::members::bytes_at;
use crate::name_list::{NameList, Named, NamedReader, new_name_at};
use contract::{Contract, Text};
use json_read_contracts::contract_from_json;
use json_read_names::{JsonFault, beside, has_three, member};
use json_tree::JsonValue;
use plans::NamedContract;
use std::alloc::Global;

impl Named for NamedContract {
    ghost name = { contract_name };

    fn name(&self) -> &Text {
        &self.name
    }
}

fn contract_at<J: JsonValue>(alloc: Global, json: &J, key: &str) -> Result<Contract, JsonFault>
    ensures { Aside JsonFault.Memory result (reading_at contract (J.json json.now) key.now) }
{
    contract_from_json(alloc, member(json, key)?)
}

// A contract, beside those before it.
fn named_contract<J: JsonValue>(
    alloc: Global,
    before: &NameList<NamedContract>,
    json: &J,
) -> Result<NamedContract, JsonFault>
    ensures reading { Aside JsonFault.Memory result (reads.contract before.now (J.json json.now)) }
    ensures new { IfOk result (λ contract. place_of contract_name contract.name before.now ≡ None) }
{
    if !has_three(json, "name", "currency", "contract") {
        return Err(JsonFault::NoForm);
    }
    let name = new_name_at(alloc, before, json, "name")?;
    let (name, currency) = beside(name, bytes_at(alloc, json, "currency"))?;
    let (named, contract) = beside((name, currency), contract_at(alloc, json, "contract"))?;
    let (name, currency) = named;
    Ok(NamedContract {
        name,
        currency,
        contract,
    })
}

// Reads contracts.
#[derive(Clone, Copy)]
pub(crate) struct Contracts;

impl NamedReader<NamedContract> for Contracts {
    ghost reading = { λ _. reads.contract };

    fn named_from_json<J: JsonValue>(
        &self,
        alloc: Global,
        before: &NameList<NamedContract>,
        json: &J,
    ) -> Result<NamedContract, JsonFault> {
        named_contract(alloc, before, json)
    }
}
