//! Intents as JSON values.
ghost use Rattle.std.specs.Prelude.{[], codes};
ghost use Rattle.contract.specs.Collections.Answers.{Aside};
ghost use Rattle.json_read_names.specs.Parts.{list, reading_at};
ghost use Rattle.json_read_inputs.specs.ReadsInput.{input};
ghost use Rattle.json_read_scenarios.specs.ReadsPlan as reads;
ghost use Rattle.json_read_scenarios.specs.declared.intent_forms.IntentForm.TheVariants as forms;

use crate::intent_forms::{IntentForm, intent_form};
use crate::lists::{ItemReader, list_at};
use crate::members::{text_at, time_at};
use crate::name_list::{NameList, place_at};
use crate::numbers::{read_count, read_workers, truth_at};
use contract::{Input, Items};
use json_read_inputs::{inputs_from_json, interval_from_json};
use json_read_names::{JsonFault, beside, member};
use json_tree::JsonValue;
use plans::{Intent, NamedContract, NamedThread};
use std::alloc::Global;

fn inputs_at<J: JsonValue>(alloc: Global, json: &J, key: &str) -> Result<Items<Input>, JsonFault>
    ensures { Aside JsonFault.Memory result (reading_at (list input) (J.json json.now) key.now) }
{
    inputs_from_json(alloc, member(json, key)?)
}

#[tactic(auto, unfolding(crate::specs::ReadsPlan::intent_by))]
fn step_from_json<J: JsonValue>(
    alloc: Global,
    contracts: &NameList<NamedContract>,
    threads: &NameList<NamedThread>,
    json: &J,
) -> Result<Intent<usize, usize>, JsonFault>
    ensures { Aside JsonFault.Memory result (reads.intent_by forms.Step contracts.now threads.now (J.json json.now)) }
{
    let thread = place_at(threads, json, "step")?;
    let inputs = inputs_at(alloc, json, "inputs")?;
    let (inputs, interval) = beside(inputs, interval_from_json(json))?;
    let (inputs, pooled) = beside(inputs, truth_at(json, "pool"))?;
    Ok(Intent::Step {
        thread,
        inputs,
        interval,
        pooled: pooled.unwrap_or(false),
    })
}

#[tactic(auto, unfolding(crate::specs::ReadsPlan::step_item))]
fn step_item_from_json<J: JsonValue>(
    alloc: Global,
    threads: &NameList<NamedThread>,
    json: &J,
) -> Result<(usize, Items<Input>), JsonFault>
    ensures { Aside JsonFault.Memory result (reads.step_item threads.now (J.json json.now)) }
{
    let thread = place_at(threads, json, "step")?;
    beside(thread, inputs_at(alloc, json, "inputs"))
}

#[derive(Clone, Copy)]
struct StepItems<'a> {
    threads: &'a NameList<NamedThread>,
}

impl<'a> ItemReader<(usize, Items<Input>)> for StepItems<'a> {
    ghost reading = { λ reader. reads.step_item reader.threads.now };

    fn item_from_json<J: JsonValue>(
        &self,
        alloc: Global,
        json: &J,
    ) -> Result<(usize, Items<Input>), JsonFault> {
        step_item_from_json(alloc, self.threads, json)
    }
}

#[tactic(auto, unfolding(crate::specs::ReadsPlan::intent_by))]
fn steps_from_json<J: JsonValue>(
    alloc: Global,
    contracts: &NameList<NamedContract>,
    threads: &NameList<NamedThread>,
    json: &J,
) -> Result<Intent<usize, usize>, JsonFault>
    ensures { Aside JsonFault.Memory result (reads.intent_by forms.Steps contracts.now threads.now (J.json json.now)) }
{
    let steps = list_at(alloc, &StepItems { threads }, json, "steps")?;
    let (steps, interval) = beside(steps, interval_from_json(json))?;
    let (steps, pooled) = beside(steps, truth_at(json, "pool"))?;
    Ok(Intent::Steps {
        steps,
        interval,
        pooled: pooled.unwrap_or(false),
    })
}

#[tactic(auto, unfolding(crate::specs::ReadsPlan::intent_by))]
fn claim_from_json<J: JsonValue>(
    alloc: Global,
    contracts: &NameList<NamedContract>,
    threads: &NameList<NamedThread>,
    json: &J,
) -> Result<Intent<usize, usize>, JsonFault>
    ensures { Aside JsonFault.Memory result (reads.intent_by forms.Claim contracts.now threads.now (J.json json.now)) }
{
    let contract = place_at(contracts, json, "claim")?;
    let role = text_at(alloc, json, "role")?;
    let (role, interval) = beside(role, interval_from_json(json))?;
    Ok(Intent::Claim {
        contract,
        role,
        interval,
    })
}

#[tactic(auto, unfolding(crate::specs::ReadsPlan::intent_by))]
fn round_from_json<J: JsonValue>(json: &J) -> Result<Intent<usize, usize>, JsonFault>
    ensures { Aside JsonFault.Memory result (reads.intent_by forms.Round [] [] (J.json json.now)) }
{
    let count = read_count(member(json, "round")?)?;
    let workers = read_workers(member(json, "workers")?)?;
    Ok(Intent::Round { count, workers })
}

// An intent, by its form, among these contracts and threads.
#[tactic(auto, unfolding(crate::specs::ReadsPlan::intent_by))]
fn intent_from_json<J: JsonValue>(
    alloc: Global,
    contracts: &NameList<NamedContract>,
    threads: &NameList<NamedThread>,
    json: &J,
) -> Result<Intent<usize, usize>, JsonFault>
    ensures { Aside JsonFault.Memory result (reads.intent contracts.now threads.now (J.json json.now)) }
{
    match intent_form(json) {
        IntentForm::Step => step_from_json(alloc, contracts, threads, json),
        IntentForm::Steps => steps_from_json(alloc, contracts, threads, json),
        IntentForm::Claim => claim_from_json(alloc, contracts, threads, json),
        IntentForm::Round => round_from_json(json),
        IntentForm::Advance => Ok(Intent::Advance(time_at(json, "advance")?)),
        IntentForm::Nothing => Err(JsonFault::NoForm),
    }
}

#[derive(Clone, Copy)]
struct Intents<'a> {
    contracts: &'a NameList<NamedContract>,
    threads: &'a NameList<NamedThread>,
}

impl<'a> ItemReader<Intent<usize, usize>> for Intents<'a> {
    ghost reading = { λ reader. reads.intent reader.contracts.now reader.threads.now };

    fn item_from_json<J: JsonValue>(
        &self,
        alloc: Global,
        json: &J,
    ) -> Result<Intent<usize, usize>, JsonFault> {
        intent_from_json(alloc, self.contracts, self.threads, json)
    }
}

// The intents that the list at a key stands for, in order.
pub(crate) fn intents_at<J: JsonValue>(
    alloc: Global,
    contracts: &NameList<NamedContract>,
    threads: &NameList<NamedThread>,
    json: &J,
    key: &str,
) -> Result<Items<Intent<usize, usize>>, JsonFault>
    ensures { Aside JsonFault.Memory result (reading_at (list (reads.intent contracts.now threads.now)) (J.json json.now) key.now) }
{
    let reader = Intents { contracts, threads };
    list_at(alloc, &reader, json, key)
}
