//! The objects of intents.
ghost use Rattle.std.specs.Prelude.{◌≡◌, ◌++◌, slice_get, IfOk, OnOk, string_bytes};
ghost use Rattle.play_notes.specs.Intents.{thread_named};
ghost use Rattle.step_notes.specs.StepObjects as steps;
ghost use Rattle.play_objects.specs.IntentObjects as told;
ghost use Rattle.play_objects.specs.IntentObjects.{step_names, cause_members, why_members};

use crate::entries::quoted;
use builder_spec::{BuildFault, Unspent};
use contract::{Input, Items, Memory};
use json_write_contracts::term_text;
use plans::{Intent, NamedContract, NamedThread};
use play_lines::build_fault_text;
use play_notes::{asks_for_nothing, cause_words, contract_name, thread_name};
use std::alloc::Global;
use std::fmt::Write;
use step_notes::comma;

fn put_name(
    alloc: Global,
    out: &mut String,
    threads: &[NamedThread],
    index: usize,
    thread: usize,
) -> Result<(), Memory>
    ensures { OnOk result (string_bytes out.new ≡ string_bytes out.old ++ (steps.comma index ++ thread_named (slice_get threads.now thread))) }
{
    let comma = comma(index);
    let name = thread_name(alloc, threads, thread)?;
    write!(out, "{comma}{name}")
}

fn put_names(
    alloc: Global,
    out: &mut String,
    threads: &[NamedThread],
    steps: &[(usize, Items<Input>)],
) -> Result<(), Memory>
    ensures { OnOk result (string_bytes out.new ≡ string_bytes out.old ++ step_names threads.now 0 steps.now) }
{
    for (index, step) in steps.iter().enumerate() {
        put_name(alloc, out, threads, index, step.0)?;
    }
    Ok(())
}

/// An intent as members of an object. It names threads and contracts by their places in these lists. Answers `Memory` only where a growth
/// was refused.
pub fn intent_members(
    alloc: Global,
    threads: &[NamedThread],
    contracts: &[NamedContract],
    intent: &Intent<usize, usize>,
) -> Result<String, Memory>
    ensures { IfOk result (λ text. string_bytes text ≡ told.intent_members threads.now contracts.now intent.now) }
{
    match intent {
        Intent::Step { thread, .. } => {
            let name = thread_name(alloc, threads, *thread)?;
            format!(in alloc; "\"step\":{name}")
        }
        Intent::Steps { steps, .. } => {
            let mut text = String::from_str(alloc, "\"steps\":[")?;
            put_names(alloc, &mut text, threads, steps.as_slice())?;
            text.push_str("]")?;
            Ok(text)
        }
        Intent::Claim { contract, role, .. } => {
            let name = contract_name(alloc, contracts, *contract)?;
            let role = term_text(alloc, role)?;
            format!(in alloc; "\"claim\":{name},\"role\":{role}")
        }
        Intent::Round { count, .. } => format!(in alloc; "\"round\":{count}"),
        Intent::Advance(tick) => format!(in alloc; "\"advance\":{tick}"),
    }
}

fn cause_members(
    alloc: Global,
    intent: &Intent<usize, usize>,
    offered: &[Unspent],
    fault: &BuildFault,
) -> Result<String, Memory>
    ensures { IfOk result (λ text. string_bytes text ≡ cause_members intent.now offered.now fault.now) }
{
    let name = build_fault_text(alloc, fault)?;
    let name = quoted(alloc, name.as_str())?;
    let words = cause_words(alloc, intent, offered, fault)?;
    let words = quoted(alloc, words.as_str())?;
    format!(in alloc; ",\"fault\":{name},\"why\":{words}")
}

fn why_members(
    alloc: Global,
    intent: &Intent<usize, usize>,
    offered: &[Unspent],
    fault: &BuildFault,
) -> Result<String, Memory>
    ensures { IfOk result (λ text. string_bytes text ≡ why_members intent.now offered.now fault.now) }
{
    if asks_for_nothing(intent, fault) {
        String::from_str(alloc, ",\"why\":\"nothing to claim\"")
    } else {
        cause_members(alloc, intent, offered, fault)
    }
}

/// The object of an intent on which nothing was built: the intent, the place of the look behind which it is told, and what hinders it. The
/// intent names threads and contracts by their places in these lists; these outputs were offered to it. Answers `Memory` only where a
/// growth was refused.
pub fn unbuilt_object(
    alloc: Global,
    threads: &[NamedThread],
    contracts: &[NamedContract],
    place: usize,
    intent: &Intent<usize, usize>,
    offered: &[Unspent],
    fault: &BuildFault,
) -> Result<String, Memory>
    ensures { IfOk result (λ text. string_bytes text
        ≡ told.unbuilt_object threads.now contracts.now place intent.now offered.now fault.now) }
{
    let members = intent_members(alloc, threads, contracts, intent)?;
    let why = why_members(alloc, intent, offered, fault)?;
    format!(in alloc; "{{\"left_out\":{{{members}}},\"entry\":{place}{why}}}\n")
}
