//! The object of a refusal.
ghost use Rattle.std.specs.Prelude.{◌≡◌, IfOk};
ghost use Rattle.request_parts.specs.Refusals.{line_members, line_name, part_word, refusal_members, refusal_object};

use crate::refusal::{LineFault, Part, Refusal};
use contract::Memory;
use marlowe_run::json_fault_name;
use refusal_objects::{members, named_members, refused_object};
use std::alloc::Global;

/// The object that says what is refused, and why, with what else is told of it.
pub(crate) fn refusal_object(
    alloc: Global,
    refusal: Refusal,
    reason: &[u8],
) -> Result<Vec<u8>, Memory>
    ensures { IfOk result (λ text. text.items ≡ refusal_object refusal reason.now) }
{
    let members = refusal_members(alloc, refusal)?;
    refused_object(alloc, members.as_slice(), reason)
}

fn refusal_members(alloc: Global, refusal: Refusal) -> Result<Vec<u8>, Memory>
    ensures { IfOk result (λ text. text.items ≡ refusal_members refusal) }
{
    match refusal {
        Refusal::Line(fault, number) => line_members(alloc, fault, number),
        Refusal::Command(fault) => members(alloc, &fault),
        Refusal::Part(part, fault) => {
            named_members(alloc, part_word(part), json_fault_name(fault))
        }
        Refusal::Undefined => named_members(alloc, "contract", "Undefined"),
        Refusal::Full => named_members(alloc, "define", "Full"),
        Refusal::NoPlay => named_members(alloc, "play", "Unsupported"),
        Refusal::Memory => named_members(alloc, "memory", "Memory"),
    }
}

fn line_members(alloc: Global, fault: LineFault, number: u64) -> Result<Vec<u8>, Memory>
    ensures { IfOk result (λ text. text.items ≡ line_members fault number) }
{
    let name = line_name(fault);
    let members = format!(in alloc; "\"of\":\"line\",\"name\":\"{name}\",\"line\":{number}")?;
    Ok(members.into_bytes())
}

fn line_name(fault: LineFault) -> &'static str
    ensures { result.now ≡ line_name fault }
{
    match fault {
        LineFault::TooLong => "TooLong",
        LineFault::NotJson => "NotJson",
        LineFault::NoObject => "NoObject",
        LineFault::NoRequest => "NoRequest",
    }
}

fn part_word(part: Part) -> &'static str
    ensures { result.now ≡ part_word part }
{
    match part {
        Part::Read => "read",
        Part::Bytes => "bytes",
        Part::Define => "define",
        Part::Forget => "forget",
        Part::From => "from",
        Part::To => "to",
        Part::Input => "input",
        Part::Party => "party",
        Part::Token => "token",
        Part::Currency => "currency",
    }
}
