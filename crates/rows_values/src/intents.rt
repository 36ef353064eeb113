//! Plans as they are printed once they are read.
use crate::scenarios::put_json;
use contract::{Input, Items, Memory, Text};
use marlowe_run::to_json;
use plans::{Intent, Plan};
use rows_text::RowFault;
use std::alloc::Global;

/// Puts a line for a plan and one for each key, for the change and for each intent at the end.
pub fn put_plan(
    alloc: Global,
    lines: &mut String,
    plan: &Plan<usize, usize>,
) -> Result<(), RowFault> {
    lines.push_str("\nplan ")?;
    lines.push_str(plan.name.as_str())?;
    put_stop(alloc, lines, plan.stop_after)?;
    put_keys(lines, plan.keys.as_slice())?;
    lines.push_str("\n change ")?;
    lines.push_str(plan.change.as_str())?;
    for intent in plan.intents.as_slice() {
        put_intent(alloc, lines, intent)?;
    }
    Ok(())
}

fn put_stop(alloc: Global, lines: &mut String, stop_after: Option<u64>) -> Result<(), Memory> {
    match stop_after {
        Some(calls) => {
            let told = format!(in alloc; " stops after {calls}")?;
            lines.push_str(told.as_str())
        }
        None => Ok(()),
    }
}

fn put_keys(lines: &mut String, keys: &[Text]) -> Result<(), Memory> {
    for key in keys {
        lines.push_str("\n key ")?;
        lines.push_str(key.as_str())?;
    }
    Ok(())
}

fn put_intent(
    alloc: Global,
    lines: &mut String,
    intent: &Intent<usize, usize>,
) -> Result<(), RowFault> {
    let line = intent_line(alloc, intent)?;
    lines.push_str(line.as_str())?;
    match intent {
        Intent::Step { inputs, .. } => put_inputs(alloc, lines, inputs.as_slice()),
        Intent::Steps { steps, .. } => put_steps(alloc, lines, steps.as_slice()),
        _ => Ok(()),
    }
}

fn intent_line(alloc: Global, intent: &Intent<usize, usize>) -> Result<String, Memory> {
    match intent {
        Intent::Step {
            thread,
            interval,
            pooled,
            ..
        } => {
            let word = if *pooled { "pooled step" } else { "step" };
            format!(in alloc;
                "\n {word} {thread} from {} to {}",
                interval.from, interval.to
            )
        }
        Intent::Steps {
            interval,
            pooled,
            ..
        } => {
            let word = if *pooled { "pooled steps" } else { "steps" };
            format!(in alloc; "\n {word} from {} to {}", interval.from, interval.to)
        }
        Intent::Claim {
            contract,
            role,
            interval,
        } => {
            let role = role.as_str();
            format!(in alloc;
                "\n claim {contract} {role} from {} to {}",
                interval.from, interval.to
            )
        }
        Intent::Round { count, workers } => { format!(in alloc; "\n round {count} by {workers}") }
        Intent::Advance(tick) => format!(in alloc; "\n advance {tick}"),
    }
}

fn put_inputs(alloc: Global, lines: &mut String, inputs: &[Input]) -> Result<(), RowFault> {
    for input in inputs {
        lines.push_str("\n  ")?;
        put_json(alloc, lines, to_json(alloc, input))?;
    }
    Ok(())
}

// Puts a line for each of several steps, with its inputs below it.
fn put_steps(
    alloc: Global,
    lines: &mut String,
    steps: &[(usize, Items<Input>)],
) -> Result<(), RowFault> {
    for step in steps {
        let thread = step.0;
        let line = format!(in alloc; "\n  step {thread}")?;
        lines.push_str(line.as_str())?;
        put_inputs(alloc, lines, step.1.as_slice())?;
    }
    Ok(())
}
