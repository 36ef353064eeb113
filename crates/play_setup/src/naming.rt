//! Plans on a ledger that is set up: what the scenario has by its place is named as the ledger names it.
ghost use Rattle.std.specs.Prelude.{◌≡◌, ◌<◌, ℕ, List, length, map, IfOk};
ghost use Rattle.std.specs.List.{All};
ghost use Rattle.contract.specs.declared.input.Input.{Input};
ghost use Rattle.json_read_scenarios.specs.Named.{IntentNames, PlanNames};
ghost use Rattle.play_setup.specs.SetUp.{start_at, currency_at, currencies, step_on, intent_on, plan_on};

use contract::{Bytes, Input, Items, Memory, TryClone};
use parties::{Intent, NamedContract, OutputRef, Plan};
use std::alloc::Global;

/// The plan with its threads named by their start outputs, and its contracts by their currencies.
pub fn plan_on(
    alloc: Global,
    contracts: &[NamedContract],
    starts: &[OutputRef],
    plan: &Plan<usize, usize>,
) -> Result<Plan<OutputRef, Bytes>, Memory>
    requires { PlanNames (length contracts.now) (length starts.now) plan.now }
    ensures { IfOk result (λ named. named ≡ plan_on (currencies contracts.now) starts.now plan.now) }
{
    let intents = intents_on(alloc, contracts, starts, plan.intents.as_slice())?;
    Ok(Plan {
        name: plan.name.try_clone()?,
        keys: plan.keys.try_clone()?,
        change: plan.change.try_clone()?,
        intents,
        stop_after: plan.stop_after,
    })
}

fn intents_on(
    alloc: Global,
    contracts: &[NamedContract],
    starts: &[OutputRef],
    intents: &[Intent<usize, usize>],
) -> Result<Items<Intent<OutputRef, Bytes>>, Memory>
    requires { All (IntentNames (length contracts.now) (length starts.now)) intents.now }
    ensures { IfOk result (λ named. named ≡ map (intent_on (currencies contracts.now) starts.now) intents.now) }
{
    let mut named = Items::new(alloc);
    for intent in intents {
        named.push(intent_on(alloc, contracts, starts, intent)?)?;
    }
    Ok(named)
}

// Steps with their threads named by their start outputs.
fn steps_on(
    alloc: Global,
    starts: &[OutputRef],
    steps: &[(usize, Items<Input>)],
) -> Result<Items<(OutputRef, Items<Input>)>, Memory>
    requires { All (λ (s : ℕ × List Input). s.0 < length starts.now) steps.now }
    ensures { IfOk result (λ named. named ≡ map (step_on starts.now) steps.now) }
{
    let mut named = Items::new(alloc);
    for step in steps {
        named.push((starts[step.0], step.1.try_clone()?))?;
    }
    Ok(named)
}

fn intent_on(
    alloc: Global,
    contracts: &[NamedContract],
    starts: &[OutputRef],
    intent: &Intent<usize, usize>,
) -> Result<Intent<OutputRef, Bytes>, Memory>
    requires { IntentNames (length contracts.now) (length starts.now) intent.now }
    ensures { IfOk result (λ named. named ≡ intent_on (currencies contracts.now) starts.now intent.now) }
{
    match intent {
        Intent::Step {
            thread,
            inputs,
            interval,
            pooled,
        } => Ok(Intent::Step {
            thread: starts[*thread],
            inputs: inputs.try_clone()?,
            interval: *interval,
            pooled: *pooled,
        }),
        Intent::Steps {
            steps,
            interval,
            pooled,
        } => Ok(Intent::Steps {
            steps: steps_on(alloc, starts, steps.as_slice())?,
            interval: *interval,
            pooled: *pooled,
        }),
        Intent::Claim {
            contract,
            role,
            interval,
        } => Ok(Intent::Claim {
            contract: contracts[*contract].currency.try_clone()?,
            role: role.try_clone()?,
            interval: *interval,
        }),
        Intent::Round { count, workers } => Ok(Intent::Round {
            count: *count,
            workers: *workers,
        }),
        Intent::Advance(tick) => Ok(Intent::Advance(*tick)),
    }
}
