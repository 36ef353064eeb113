//! Intents on which nothing was built.
ghost use Rattle.std.specs.Prelude.{◌≡◌, ◌++◌, slice_get, IfOk, OnOk, option_copied, string_bytes};
ghost use Rattle.play_notes.specs.Intents as told;
ghost use Rattle.play_notes.specs.Intents.{thread_named, contract_named, steps_text, funds_words, cause_words, cause_text, is_no_thread, asks_for_nothing, cause_of};
ghost use Rattle.play_notes.specs.Lacking.{lacking as told_lacking};

use crate::lacking::lacking;
use builder_spec::{BuildFault, Unspent};
use contract::{Input, Items, Memory, Token};
use fault_words::{build_words, lacking_words, too_little_words};
use json_write_contracts::term_text;
use plans::{Intent, NamedContract, NamedThread};
use play_lines::build_fault_text;
use std::alloc::Global;
use std::fmt::Write;

fn thread_at(threads: &[NamedThread], place: usize) -> Option<&NamedThread>
    ensures { option_copied result ≡ slice_get threads.now place }
{
    threads.get(place)
}

/// The name of the thread at a place of a list, as a JSON text; where there is none, nothing. Answers `Memory` only where a growth was
/// refused.
pub fn thread_name(alloc: Global, threads: &[NamedThread], place: usize) -> Result<String, Memory>
    ensures { IfOk result (λ text. string_bytes text ≡ thread_named (slice_get threads.now place)) }
{
    match thread_at(threads, place) {
        Some(thread) => term_text(alloc, &thread.name),
        None => Ok(String::new(alloc)),
    }
}

fn contract_at(contracts: &[NamedContract], place: usize) -> Option<&NamedContract>
    ensures { option_copied result ≡ slice_get contracts.now place }
{
    contracts.get(place)
}

/// The name of the contract at a place of a list, as a JSON text; where there is none, nothing. Answers `Memory` only where a growth was
/// refused.
pub fn contract_name(
    alloc: Global,
    contracts: &[NamedContract],
    place: usize,
) -> Result<String, Memory>
    ensures { IfOk result (λ text. string_bytes text ≡ contract_named (slice_get contracts.now place)) }
{
    match contract_at(contracts, place) {
        Some(contract) => term_text(alloc, &contract.name),
        None => Ok(String::new(alloc)),
    }
}

// The threads of steps, a space before each.
fn put_steps(
    alloc: Global,
    out: &mut String,
    threads: &[NamedThread],
    steps: &[(usize, Items<Input>)],
) -> Result<(), Memory>
    ensures { OnOk result (string_bytes out.new ≡ string_bytes out.old ++ steps_text threads.now steps.now) }
{
    for step in steps {
        let name = thread_name(alloc, threads, step.0)?;
        write!(out, " {name}")?;
    }
    Ok(())
}

/// An intent in words. It names threads and contracts by their places in these lists. Answers `Memory` only where a growth was refused.
pub fn intent_text(
    alloc: Global,
    threads: &[NamedThread],
    contracts: &[NamedContract],
    intent: &Intent<usize, usize>,
) -> Result<String, Memory>
    ensures { IfOk result (λ text. string_bytes text ≡ told.intent_text threads.now contracts.now intent.now) }
{
    match intent {
        Intent::Step { thread, .. } => {
            let name = thread_name(alloc, threads, *thread)?;
            format!(in alloc; "step {name}")
        }
        Intent::Steps { steps, .. } => {
            let mut text = String::from_str(alloc, "steps")?;
            put_steps(alloc, &mut text, threads, steps.as_slice())?;
            Ok(text)
        }
        Intent::Claim { contract, role, .. } => {
            let name = contract_name(alloc, contracts, *contract)?;
            let role = term_text(alloc, role)?;
            format!(in alloc; "claim {name} {role}")
        }
        Intent::Round { count, .. } => format!(in alloc; "round {count}"),
        Intent::Advance(tick) => format!(in alloc; "advance {tick}"),
    }
}

fn funds_words(
    alloc: Global,
    token: &Token,
    intent: &Intent<usize, usize>,
    offered: &[Unspent],
) -> Result<String, Memory>
    ensures { IfOk result (λ text. string_bytes text ≡ funds_words token.now (told_lacking token.now intent.now offered.now)) }
{
    match lacking(token, intent, offered) {
        Ok(number) => lacking_words(alloc, number, token),
        Err(_) => too_little_words(alloc, token),
    }
}

/// What hinders an intent to which these outputs were offered, in words: of funds how much lacks. Answers `Memory` only where a growth was
/// refused.
pub fn cause_words(
    alloc: Global,
    intent: &Intent<usize, usize>,
    offered: &[Unspent],
    fault: &BuildFault,
) -> Result<String, Memory>
    ensures { IfOk result (λ text. string_bytes text ≡ cause_words intent.now offered.now fault.now) }
{
    match fault {
        BuildFault::NoFunds(token) => funds_words(alloc, token, intent, offered),
        _ => build_words(alloc, fault),
    }
}

fn cause_text(
    alloc: Global,
    intent: &Intent<usize, usize>,
    offered: &[Unspent],
    fault: &BuildFault,
) -> Result<String, Memory>
    ensures { IfOk result (λ text. string_bytes text ≡ cause_text intent.now offered.now fault.now) }
{
    let name = build_fault_text(alloc, fault)?;
    let words = cause_words(alloc, intent, offered, fault)?;
    format!(in alloc; ": not built: {name}: {words}")
}

/// Whether a fault is that there was no thread to step, or no payout to claim.
pub fn is_no_thread(fault: &BuildFault) -> bool
    ensures { result ≡ is_no_thread fault.now }
{
    match fault {
        BuildFault::NoThread => true,
        _ => false,
    }
}

/// Whether it is a claim that was shown no payout.
pub fn asks_for_nothing(intent: &Intent<usize, usize>, fault: &BuildFault) -> bool
    ensures { result ≡ asks_for_nothing intent.now fault.now }
{
    match intent {
        Intent::Claim { .. } => is_no_thread(fault),
        _ => false,
    }
}

fn cause_of(
    alloc: Global,
    intent: &Intent<usize, usize>,
    offered: &[Unspent],
    fault: &BuildFault,
) -> Result<String, Memory>
    ensures { IfOk result (λ text. string_bytes text ≡ cause_of intent.now offered.now fault.now) }
{
    if asks_for_nothing(intent, fault) {
        String::from_str(alloc, ": nothing to claim")
    } else {
        cause_text(alloc, intent, offered, fault)
    }
}

/// An intent on which nothing was built, in words, and what hinders it: its name, and in words. The intent names threads and contracts by
/// their places in these lists; these outputs were offered to it. Answers `Memory` only where a growth was refused.
pub fn unbuilt_text(
    alloc: Global,
    threads: &[NamedThread],
    contracts: &[NamedContract],
    intent: &Intent<usize, usize>,
    offered: &[Unspent],
    fault: &BuildFault,
) -> Result<String, Memory>
    ensures { IfOk result (λ text. string_bytes text
        ≡ told.unbuilt_text threads.now contracts.now intent.now offered.now fault.now) }
{
    let intent_words = intent_text(alloc, threads, contracts, intent)?;
    let cause = cause_of(alloc, intent, offered, fault)?;
    format!(in alloc; "    {intent_words}{cause}\n")
}
