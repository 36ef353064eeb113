//! Scenarios as JSON values and as texts.
ghost use Rattle.std.specs.Prelude.{IfOk};
ghost use Rattle.contract.specs.Collections.Answers.{Aside};
ghost use Rattle.json_read_names.specs.ReadsText.{of_text, of_text_within};
ghost use Rattle.json_read_scenarios.specs.Named.{NamesWhatItHas};
ghost use Rattle.json_read_scenarios.specs.ReadsScenario as reads;

use crate::contracts::Contracts;
use crate::funds::genesis_at;
use crate::members::time_at;
use crate::name_list::named_at;
use crate::plan_forms::plans_at;
use crate::threads::threads_at;
use json::Scratch;
use json_read_names::{JsonFault, has_three, has_two, json_of, json_within};
use json_tree::JsonValue;
use plans::Scenario;
use std::alloc::Global;

/// The scenario that a JSON value stands for, in which a thread's contract, and the thread or contract of an intent, are
/// places in the scenario's lists. A name that is unknown or that stands twice in its list, a number of workers outside of
/// 1 to 16 and a 64th plan are `NoForm`; a round of fewer than 0 transactions, and a stop after fewer than 0 or more than
/// 2^63 - 1 calls, are `OutOfRange`. It takes n log n steps in what is read.
pub fn scenario_from_json<J: JsonValue>(alloc: Global, json: &J) -> Result<Scenario, JsonFault>
    ensures reading { Aside JsonFault.Memory result (reads.scenario (J.json json.now)) }
    ensures names { IfOk result NamesWhatItHas }
{
    if !(has_three(json, "tick", "genesis", "contracts") && has_two(json, "threads", "plans")) {
        return Err(JsonFault::NoForm);
    }
    let tick = time_at(json, "tick")?;
    let genesis = genesis_at(alloc, json, "genesis")?;
    let contracts = named_at(alloc, &Contracts, json, "contracts")?;
    let threads = threads_at(alloc, &contracts, json, "threads")?;
    let plans = plans_at(alloc, &contracts, &threads, json, "plans")?;
    Ok(Scenario {
        tick,
        genesis,
        contracts: contracts.into_items(),
        threads: threads.into_items(),
        plans: plans.into_items(),
    })
}

/// Reads the text of a scenario. Each thread of it names a contract that it has, each intent a thread or a contract, and it
/// has at most 63 plans.
pub fn read_scenario(alloc: Global, text: &[u8]) -> Result<Scenario, JsonFault>
    ensures reading { Aside JsonFault.Memory result (of_text reads.scenario text.now) }
    ensures names { IfOk result NamesWhatItHas }
{
    let mut scratch = Scratch::new(alloc);
    let json = json_of(alloc, text, &mut scratch)?;
    scenario_from_json(alloc, &json)
}

/// Reads the text of a scenario whose lists and objects nest no deeper than `depth`: `read_scenario` has 127. A contract of it begins three
/// levels down. Each level takes stack, as the text is read and as the contract is dropped.
pub fn read_scenario_within(alloc: Global, text: &[u8], depth: usize) -> Result<Scenario, JsonFault>
    ensures reading { Aside JsonFault.Memory result (of_text_within depth reads.scenario text.now) }
    ensures names { IfOk result NamesWhatItHas }
{
    let mut scratch = Scratch::new(alloc);
    let json = json_within(alloc, text, &mut scratch, depth)?;
    scenario_from_json(alloc, &json)
}
