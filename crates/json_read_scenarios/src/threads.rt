//! The threads of a scenario as JSON values.
ghost use Rattle.std.specs.Prelude.{◌≡◌, None, IfOk};
ghost use Rattle.contract.specs.Collections.Answers.{Aside};
ghost use Rattle.json_read_names.specs.Parts.{reading_at};
ghost use Rattle.json_read_scenarios.specs.Names.{place_of, list_in_turn};
ghost use Rattle.json_read_scenarios.specs.ReadsPlan.{thread_name};
ghost use Rattle.json_read_scenarios.specs.ReadsScenario as reads;

use crate::members::{text_at, time_at};
use crate::name_list::{NameList, Named, NamedReader, named_at, new_name_at, place_at};
use contract::{Entries, State, Text};
use json_read_inputs::accounts_from_json;
use json_read_names::{JsonFault, beside, has_three, has_two, member};
use json_tree::JsonValue;
use plans::{NamedContract, NamedThread};
use std::alloc::Global;

impl Named for NamedThread {
    ghost name = { thread_name };

    fn name(&self) -> &Text {
        &self.name
    }
}

// The state with which a thread starts.
#[tactic(auto, using(collections::proofs::Maps::no_entries))]
fn first_state_from_json<J: JsonValue>(alloc: Global, json: &J) -> Result<State, JsonFault>
    ensures { Aside JsonFault.Memory result (reads.first_state (J.json json.now)) }
{
    let accounts = accounts_from_json(alloc, member(json, "accounts")?)?;
    let (accounts, min_time) = beside(accounts, time_at(json, "minTime"))?;
    let state = State::from_entries(accounts, Entries::new(alloc), Entries::new(alloc), min_time);
    Ok(state)
}

// A thread of one of these contracts, beside those before it.
fn thread_from_json<J: JsonValue>(
    alloc: Global,
    contracts: &NameList<NamedContract>,
    before: &NameList<NamedThread>,
    json: &J,
) -> Result<NamedThread, JsonFault>
    ensures reading { Aside JsonFault.Memory result (reads.new_thread contracts.now before.now (J.json json.now)) }
    ensures new { IfOk result (λ thread. place_of thread_name thread.name before.now ≡ None) }
{
    if !(has_three(json, "name", "contract", "by") && has_two(json, "accounts", "minTime")) {
        return Err(JsonFault::NoForm);
    }
    let name = new_name_at(alloc, before, json, "name")?;
    let (name, contract) = beside(name, place_at(contracts, json, "contract"))?;
    let (name, by) = beside(name, text_at(alloc, json, "by"))?;
    let (texts, state) = beside((name, by), first_state_from_json(alloc, json))?;
    let (name, by) = texts;
    Ok(NamedThread {
        name,
        contract,
        by,
        state,
    })
}

// Reads threads of these contracts.
#[derive(Clone, Copy)]
struct Threads<'a> {
    contracts: &'a NameList<NamedContract>,
}

impl<'a> NamedReader<NamedThread> for Threads<'a> {
    ghost reading = { λ reader. reads.new_thread reader.contracts.now };

    fn named_from_json<J: JsonValue>(
        &self,
        alloc: Global,
        before: &NameList<NamedThread>,
        json: &J,
    ) -> Result<NamedThread, JsonFault> {
        thread_from_json(alloc, self.contracts, before, json)
    }
}

// The threads that the list at a key stands for, in order, of these contracts.
pub(crate) fn threads_at<J: JsonValue>(
    alloc: Global,
    contracts: &NameList<NamedContract>,
    json: &J,
    key: &str,
) -> Result<NameList<NamedThread>, JsonFault>
    ensures { Aside JsonFault.Memory result (reading_at (list_in_turn (reads.new_thread contracts.now)) (J.json json.now) key.now) }
{
    let reader = Threads { contracts };
    named_at(alloc, &reader, json, key)
}
