//! Plans as JSON values.
ghost use Rattle.std.specs.Prelude.{◌≡◌, None, IfOk};
ghost use Rattle.contract.specs.Collections.Answers.{Aside};
ghost use Rattle.json_read_names.specs.Parts.{list, reading_at, text};
ghost use Rattle.json_read_scenarios.specs.Names.{place_of, list_in_turn};
ghost use Rattle.json_read_scenarios.specs.ReadsPlan as reads;
ghost use Rattle.json_read_scenarios.specs.ReadsPlan.{plan_name};

use crate::intents::intents_at;
use crate::lists::{ItemReader, list_at};
use crate::members::text_at;
use crate::name_list::{NameList, Named, NamedReader, named_at, new_name_at};
use crate::numbers::calls_at;
use contract::{Items, Text};
use json_read_names::{JsonFault, has_two, read_text};
use json_tree::JsonValue;
use plans::{NamedContract, NamedThread, Plan};
use std::alloc::Global;

impl Named for Plan<usize, usize> {
    ghost name = { plan_name };

    fn name(&self) -> &Text {
        &self.name
    }
}

#[derive(Clone, Copy)]
struct Texts;

impl ItemReader<Text> for Texts {
    ghost reading = { λ _. text };

    fn item_from_json<J: JsonValue>(&self, alloc: Global, json: &J) -> Result<Text, JsonFault> {
        read_text(alloc, json)
    }
}

fn texts_at<J: JsonValue>(alloc: Global, json: &J, key: &str) -> Result<Items<Text>, JsonFault>
    ensures { Aside JsonFault.Memory result (reading_at (list text) (J.json json.now) key.now) }
{
    list_at(alloc, &Texts, json, key)
}

// A plan, beside those before it, of which there are at most 62.
fn plan_from_json<J: JsonValue>(
    alloc: Global,
    contracts: &NameList<NamedContract>,
    threads: &NameList<NamedThread>,
    before: &NameList<Plan<usize, usize>>,
    json: &J,
) -> Result<Plan<usize, usize>, JsonFault>
    ensures reading { Aside JsonFault.Memory result (reads.plan contracts.now threads.now before.now (J.json json.now)) }
    ensures new { IfOk result (λ plan. place_of plan_name plan.name before.now ≡ None) }
{
    if !(before.len() < 63 && has_two(json, "name", "keys") && has_two(json, "change", "intents")) {
        return Err(JsonFault::NoForm);
    }
    let name = new_name_at(alloc, before, json, "name")?;
    let keys = texts_at(alloc, json, "keys")?;
    let change = text_at(alloc, json, "change")?;
    let intents = intents_at(alloc, contracts, threads, json, "intents")?;
    let stop_after = calls_at(json, "stop_after")?;
    Ok(Plan {
        name,
        keys,
        change,
        intents,
        stop_after,
    })
}

// Reads plans among these contracts and threads, at most 63.
#[derive(Clone, Copy)]
struct Plans<'a> {
    contracts: &'a NameList<NamedContract>,
    threads: &'a NameList<NamedThread>,
}

impl<'a> NamedReader<Plan<usize, usize>> for Plans<'a> {
    ghost reading = { λ reader. reads.plan reader.contracts.now reader.threads.now };

    fn named_from_json<J: JsonValue>(
        &self,
        alloc: Global,
        before: &NameList<Plan<usize, usize>>,
        json: &J,
    ) -> Result<Plan<usize, usize>, JsonFault> {
        plan_from_json(alloc, self.contracts, self.threads, before, json)
    }
}

// The plans that the list at a key stands for, at most 63.
pub(crate) fn plans_at<J: JsonValue>(
    alloc: Global,
    contracts: &NameList<NamedContract>,
    threads: &NameList<NamedThread>,
    json: &J,
    key: &str,
) -> Result<NameList<Plan<usize, usize>>, JsonFault>
    ensures { Aside JsonFault.Memory result (reading_at (list_in_turn (reads.plan contracts.now threads.now)) (J.json json.now) key.now) }
{
    let reader = Plans { contracts, threads };
    named_at(alloc, &reader, json, key)
}
