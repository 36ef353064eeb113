//! The objects of entries.
ghost use Rattle.std.specs.Prelude.{◌≡◌, ◌++◌, map, IfOk, OnOk, codes, string_bytes};
ghost use Rattle.play_notes.specs.Intents as intents;
ghost use Rattle.step_notes.specs.StepObjects as steps;
ghost use Rattle.play_objects.specs.EntryObjects as told;
ghost use Rattle.play_objects.specs.EntryObjects.{refusal_members, verdict_members, ticket_object, ticket_objects, round_members, shown_members, reply_members, entry_head, entry_object};

use builder_spec::{Entry, Reply, Ticketed, TxFault, Verdict};
use contract::Memory;
use fault_words::rule_words;
use json_write_contracts::term_text;
use marlowe_refusals::compile_fault_name;
use play_lines::tx_fault_text;
use std::alloc::Global;
use std::fmt::Write;
use step_notes::comma;

/// A text as a JSON text.
pub(crate) fn quoted(alloc: Global, text: &str) -> Result<String, Memory>
    ensures { IfOk result (λ quoted. string_bytes quoted ≡ intents.quoted text.now) }
{
    term_text(alloc, &text)
}

fn refusal_members(alloc: Global, fault: &TxFault) -> Result<String, Memory>
    ensures { IfOk result (λ text. string_bytes text ≡ refusal_members fault.now) }
{
    let name = tx_fault_text(alloc, fault)?;
    let name = quoted(alloc, name.as_str())?;
    let words = rule_words(alloc, fault)?;
    let words = quoted(alloc, words.as_str())?;
    format!(in alloc; "\"reply\":\"refused\",\"fault\":{name},\"why\":{words}")
}

fn verdict_members(alloc: Global, verdict: &Verdict) -> Result<String, Memory>
    ensures { IfOk result (λ text. string_bytes text ≡ verdict_members verdict.now) }
{
    match verdict {
        Verdict::Accepted => String::from_str(alloc, "\"reply\":\"accepted\""),
        Verdict::Refused(fault) => refusal_members(alloc, fault),
    }
}

fn put_ticket(
    alloc: Global,
    out: &mut String,
    index: usize,
    ticket: &Ticketed,
) -> Result<(), Memory>
    ensures { OnOk result (string_bytes out.new ≡ string_bytes out.old ++ (steps.comma index ++ ticket_object ticket.now)) }
{
    let comma = comma(index);
    let number = ticket.ticket;
    let verdict = verdict_members(alloc, &ticket.verdict)?;
    write!(out, "{comma}{{\"ticket\":{number},{verdict}}}")
}

fn put_tickets(alloc: Global, out: &mut String, tickets: &[Ticketed]) -> Result<(), Memory>
    ensures { OnOk result (string_bytes out.new ≡ string_bytes out.old ++ ticket_objects 0 tickets.now) }
{
    for (index, ticket) in tickets.iter().enumerate() {
        put_ticket(alloc, out, index, ticket)?;
    }
    Ok(())
}

// What a round took.
fn put_round(alloc: Global, out: &mut String, tickets: &[Ticketed]) -> Result<(), Memory>
    ensures { OnOk result (string_bytes out.new ≡ string_bytes out.old ++ round_members tickets.now) }
{
    out.push_str("\"call\":\"round\",\"reply\":\"taken\",\"tickets\":[")?;
    put_tickets(alloc, out, tickets)?;
    out.push_str("]")
}

fn put_quoted(alloc: Global, out: &mut String, head: &str, text: &str) -> Result<(), Memory>
    ensures { OnOk result (string_bytes out.new ≡ string_bytes out.old ++ (head.now ++ intents.quoted text.now)) }
{
    let text = quoted(alloc, text)?;
    write!(out, "{head}{text}")
}

fn put_refusal(alloc: Global, out: &mut String, fault: &TxFault) -> Result<(), Memory>
    ensures { OnOk result (string_bytes out.new ≡ string_bytes out.old ++ (codes "\"call\":\"submit\"," ++ refusal_members fault.now)) }
{
    let members = refusal_members(alloc, fault)?;
    write!(out, "\"call\":\"submit\",{members}")
}

fn put_shown(alloc: Global, out: &mut String, tick: i64) -> Result<(), Memory>
    ensures { OnOk result (string_bytes out.new ≡ string_bytes out.old ++ shown_members tick) }
{
    let tick = term_text(alloc, &tick)?;
    write!(out, "\"call\":\"look\",\"reply\":\"shown\",\"tick\":{tick}")
}

// The call that a reply answers, and the reply.
fn put_reply(alloc: Global, out: &mut String, reply: &Reply) -> Result<(), Memory>
    ensures { OnOk result (string_bytes out.new ≡ string_bytes out.old ++ reply_members reply.now) }
{
    match reply {
        Reply::Published(_) => out.push_str("\"call\":\"publish\",\"reply\":\"published\""),
        Reply::NotCompiled(fault) => put_quoted(
            alloc,
            out,
            "\"call\":\"publish\",\"reply\":\"refused\",\"fault\":",
            compile_fault_name(*fault),
        ),
        Reply::IdInUse => out.push_str("\"call\":\"publish\",\"reply\":\"in use\""),
        Reply::Advanced => out.push_str("\"call\":\"advance\",\"reply\":\"advanced\""),
        Reply::Backward => out.push_str(
            "\"call\":\"advance\",\"reply\":\"backward\",\"why\":\"the tick is later already\"",
        ),
        Reply::Look(look) => put_shown(alloc, out, look.tick),
        Reply::Accepted(_) => out.push_str("\"call\":\"submit\",\"reply\":\"accepted\""),
        Reply::Refused(fault) => put_refusal(alloc, out, fault),
        Reply::Ticket(ticket) => {
            write!(
                out,
                "\"call\":\"enqueue\",\"reply\":\"pooled\",\"ticket\":{ticket}"
            )
        }
        Reply::Full => out.push_str(
            "\"call\":\"enqueue\",\"reply\":\"full\",\"why\":\"the pool has 1024 transactions, and takes no more\"",
        ),
        Reply::Round(tickets) => put_round(alloc, out, tickets.as_slice()),
    }
}

fn entry_head(alloc: Global, place: usize, entry: &Entry) -> Result<String, Memory>
    ensures { IfOk result (λ text. string_bytes text ≡ entry_head place entry.now) }
{
    let seat = entry.seat;
    let number = entry.number;
    format!(in alloc; "{{\"entry\":{place},\"seat\":{seat},\"number\":{number},")
}

fn entry_object(alloc: Global, place: usize, entry: &Entry) -> Result<String, Memory>
    ensures { IfOk result (λ text. string_bytes text ≡ entry_object place entry.now) }
{
    let mut out = entry_head(alloc, place, entry)?;
    put_reply(alloc, &mut out, &entry.reply)?;
    out.push_str("}\n")?;
    Ok(out)
}

/// The object of each of these entries, in order, each with a line feed. Answers `Memory` only where a growth was refused.
pub fn entry_objects(alloc: Global, entries: &[Entry]) -> Result<Vec<String>, Memory>
    ensures { IfOk result (λ objects. map (λ s. string_bytes s) objects.items ≡ told.entry_objects 0 entries.now) }
{
    let mut objects = Vec::new(alloc);
    for (place, entry) in entries.iter().enumerate() {
        let object = entry_object(alloc, place, entry)?;
        objects.push(object)?;
    }
    Ok(objects)
}
