//! A line for each intent.
ghost use Rattle.std.specs.Prelude.{◌≡◌, ◌++◌, IfOk, OnOk, option_copied, slice_get, string_bytes};
ghost use Rattle.play_endings.specs.EndingLines as told;
ghost use Rattle.play_endings.specs.EndingLines.{ending_text, at_entry, ending_members, ending_line, ending_object, ending_by, line_of, ending_lines, plan_text};

use crate::ending::{Ended, Ending};
use contract::{Memory, Text};
use play_objects::{
    Intent, NamedContract, NamedThread, Spelling, intent_members, intent_text, term_text,
};
use std::alloc::Global;
use std::fmt::Write;

pub(crate) fn intent_at(
    intents: &[Intent<usize, usize>],
    place: usize,
) -> Option<&Intent<usize, usize>>
    ensures { option_copied result ≡ slice_get intents.now place }
{
    intents.get(place)
}

fn ending_text(alloc: Global, ending: Ending) -> Result<String, Memory>
    ensures { IfOk result (λ text. string_bytes text ≡ ending_text ending) }
{
    match ending {
        Ending::Done(place) => format!(in alloc; "done at {place}"),
        Ending::NotBuilt => format!(in alloc; "not built"),
        Ending::NothingToClaim => format!(in alloc; "nothing to claim"),
        Ending::Refused(place) => format!(in alloc; "refused at {place}"),
        Ending::GivenUp(place) => format!(in alloc; "given up at {place}"),
        Ending::PoolFull(place) => format!(in alloc; "pool full at {place}"),
        Ending::RefusedInRound(place, ticket) => {
            format!(in alloc; "refused in round at {place}, ticket {ticket}")
        }
        Ending::Pooled(ticket) => format!(in alloc; "in the pool, ticket {ticket}"),
        Ending::Backward(place) => format!(in alloc; "backward at {place}"),
        Ending::Stopped => format!(in alloc; "stopped"),
    }
}

// How an intent ended at an entry.
fn at_entry(alloc: Global, word: &str, place: usize) -> Result<String, Memory>
    ensures { IfOk result (λ text. string_bytes text ≡ at_entry word.now place) }
{
    format!(in alloc; "\"ended\":\"{word}\",\"entry\":{place}")
}

fn in_round(alloc: Global, place: usize, ticket: u64) -> Result<String, Memory>
    ensures { IfOk result (λ text. string_bytes text ≡ ending_members (Ending.RefusedInRound place ticket)) }
{
    let ended = at_entry(alloc, "refused in round", place)?;
    format!(in alloc; "{ended},\"ticket\":{ticket}")
}

fn ending_members(alloc: Global, ending: Ending) -> Result<String, Memory>
    ensures { IfOk result (λ text. string_bytes text ≡ ending_members ending) }
{
    match ending {
        Ending::Done(place) => at_entry(alloc, "done", place),
        Ending::NotBuilt => String::from_str(alloc, "\"ended\":\"not built\""),
        Ending::NothingToClaim => String::from_str(alloc, "\"ended\":\"nothing to claim\""),
        Ending::Refused(place) => at_entry(alloc, "refused", place),
        Ending::GivenUp(place) => at_entry(alloc, "given up", place),
        Ending::PoolFull(place) => at_entry(alloc, "pool full", place),
        Ending::RefusedInRound(place, ticket) => in_round(alloc, place, ticket),
        Ending::Pooled(ticket) => {
            format!(in alloc; "\"ended\":\"in the pool\",\"ticket\":{ticket}")
        }
        Ending::Backward(place) => at_entry(alloc, "backward", place),
        Ending::Stopped => String::from_str(alloc, "\"ended\":\"stopped\""),
    }
}

fn put_words(
    alloc: Global,
    out: &mut String,
    plan: &str,
    threads: &[NamedThread],
    contracts: &[NamedContract],
    intent: &Intent<usize, usize>,
    ending: Ending,
) -> Result<(), Memory>
    ensures { OnOk result (string_bytes out.new ≡ string_bytes out.old
        ++ ending_line plan.now threads.now contracts.now intent.now ending) }
{
    let intent_words = intent_text(alloc, threads, contracts, intent)?;
    let ending_words = ending_text(alloc, ending)?;
    write!(out, "plan {plan} {intent_words}: {ending_words}\n")
}

fn put_object(
    alloc: Global,
    out: &mut String,
    plan: &str,
    threads: &[NamedThread],
    contracts: &[NamedContract],
    place: usize,
    intent: &Intent<usize, usize>,
    ending: Ending,
) -> Result<(), Memory>
    ensures { OnOk result (string_bytes out.new ≡ string_bytes out.old
        ++ ending_object plan.now threads.now contracts.now place intent.now ending) }
{
    let members = intent_members(alloc, threads, contracts, intent)?;
    let ended = ending_members(alloc, ending)?;
    write!(
        out,
        "{{\"plan\":{plan},\"place\":{place},\"intent\":{{{members}}},{ended}}}\n"
    )
}

fn put_ending(
    alloc: Global,
    out: &mut String,
    spelling: Spelling,
    plan: &str,
    threads: &[NamedThread],
    contracts: &[NamedContract],
    place: usize,
    intent: &Intent<usize, usize>,
    ending: Ending,
) -> Result<(), Memory>
    ensures { OnOk result (string_bytes out.new ≡ string_bytes out.old
        ++ ending_by spelling plan.now threads.now contracts.now place intent.now ending) }
{
    match spelling {
        Spelling::Lines => put_words(alloc, out, plan, threads, contracts, intent, ending),
        Spelling::Objects => {
            put_object(alloc, out, plan, threads, contracts, place, intent, ending)
        }
    }
}

// Puts the line of an intent, if there is one.
fn put_line(
    alloc: Global,
    out: &mut String,
    spelling: Spelling,
    plan: &str,
    threads: &[NamedThread],
    contracts: &[NamedContract],
    place: usize,
    intent: Option<&Intent<usize, usize>>,
    ending: Ending,
) -> Result<(), Memory>
    ensures { OnOk result (string_bytes out.new ≡ string_bytes out.old
        ++ line_of spelling plan.now threads.now contracts.now place (option_copied intent.entry) ending) }
{
    match intent {
        Some(intent) => put_ending(
            alloc, out, spelling, plan, threads, contracts, place, intent, ending,
        ),
        None => Ok(()),
    }
}

fn put_lines(
    alloc: Global,
    out: &mut String,
    spelling: Spelling,
    plan: &str,
    threads: &[NamedThread],
    contracts: &[NamedContract],
    intents: &[Intent<usize, usize>],
    ended: &[Ended<'_, '_>],
) -> Result<(), Memory>
    ensures { OnOk result (string_bytes out.new ≡ string_bytes out.old
        ++ ending_lines spelling plan.now threads.now contracts.now intents.now 0 ended.now) }
{
    for (place, one) in ended.iter().enumerate() {
        let intent = intent_at(intents, place);
        put_line(
            alloc, out, spelling, plan, threads, contracts, place, intent, one.ending,
        )?;
    }
    Ok(())
}

// The plan's name, as an object also its seat.
fn plan_text(alloc: Global, spelling: Spelling, seat: u64, name: &Text) -> Result<String, Memory>
    ensures { IfOk result (λ text. string_bytes text ≡ plan_text spelling seat name.now) }
{
    let name = term_text(alloc, name)?;
    match spelling {
        Spelling::Lines => Ok(name),
        Spelling::Objects => format!(in alloc; "{name},\"seat\":{seat}"),
    }
}

/// Puts a line or an object for each intent of a plan with this seat at the end of a text: the plan's name, the intent, which names threads
/// and contracts by their places in these lists, and how it ended. Answers `Memory` only where a growth was refused.
pub fn put_endings(
    alloc: Global,
    out: &mut String,
    spelling: Spelling,
    seat: u64,
    name: &Text,
    threads: &[NamedThread],
    contracts: &[NamedContract],
    intents: &[Intent<usize, usize>],
    ended: &[Ended<'_, '_>],
) -> Result<(), Memory>
    ensures { OnOk result (string_bytes out.new ≡ string_bytes out.old
        ++ told.plan_lines spelling seat name.now threads.now contracts.now intents.now ended.now) }
{
    let plan = plan_text(alloc, spelling, seat, name)?;
    put_lines(
        alloc,
        out,
        spelling,
        plan.as_str(),
        threads,
        contracts,
        intents,
        ended,
    )
}
