//! The lines of entries.
ghost use Rattle.std.specs.Prelude.{◌≡◌, ◌++◌, OnOk, string_bytes};
ghost use Rattle.builder_spec.specs.Ledger.declared.call.Reply.TheVariants as replies;
ghost use Rattle.play_lines.specs.PlayLines.{ticket_text, reply_text, entry_line, entry_lines};

use crate::fault_texts::tx_fault_text;
use builder_spec::{Entry, Memory, Reply, Ticketed, Verdict};
use marlowe_refusals::compile_fault_name;
use std::alloc::Global;
use std::fmt::Write;

// The lines of entries, which count from 0.
pub(crate) fn print_entries(
    alloc: Global,
    out: &mut String,
    entries: &[Entry],
) -> Result<(), Memory>
    ensures { OnOk result (string_bytes out.new ≡ string_bytes out.old ++ entry_lines 0 entries.now) }
{
    for (number, entry) in entries.iter().enumerate() {
        print_entry(alloc, out, number, entry)?;
    }
    Ok(())
}

/// Puts an entry's line at the end of a text: its number, its seat with its number there, the call and what it was answered. Answers
/// `Memory` only where a growth was refused.
pub fn print_entry(
    alloc: Global,
    out: &mut String,
    number: usize,
    entry: &Entry,
) -> Result<(), Memory>
    ensures { OnOk result (string_bytes out.new ≡ string_bytes out.old ++ entry_line number entry.now) }
{
    let seat = entry.seat;
    let of_seat = entry.number;
    write!(out, "{number} {seat}.{of_seat} ")?;
    print_reply(alloc, out, &entry.reply)?;
    out.push_str("\n")
}

// The call that a reply answers, and the reply: of each call its replies are of its own kinds.
fn print_reply(alloc: Global, out: &mut String, reply: &Reply) -> Result<(), Memory>
    ensures { OnOk result (string_bytes out.new ≡ string_bytes out.old ++ reply_text reply.now) }
{
    match reply {
        Reply::Published(_) => out.push_str("publish published"),
        Reply::NotCompiled(fault) => {
            let name = compile_fault_name(*fault);
            write!(out, "publish refused {name}")
        }
        Reply::IdInUse => out.push_str("publish in use"),
        Reply::Advanced => out.push_str("advance advanced"),
        Reply::Backward => out.push_str("advance backward"),
        Reply::Look(look) => {
            let tick = look.tick;
            write!(out, "look tick {tick}")
        }
        Reply::Accepted(_) => out.push_str("submit accepted"),
        Reply::Refused(fault) => {
            let fault = tx_fault_text(alloc, fault)?;
            write!(out, "submit refused {fault}")
        }
        Reply::Ticket(ticket) => write!(out, "enqueue ticket {ticket}"),
        Reply::Full => out.push_str("enqueue full"),
        Reply::Round(tickets) => print_round(alloc, out, tickets.as_slice()),
    }
}

// A round: none, or its tickets with their verdicts.
fn print_round(alloc: Global, out: &mut String, tickets: &[Ticketed]) -> Result<(), Memory>
    ensures { OnOk result (string_bytes out.new ≡ string_bytes out.old ++ reply_text (replies.Round tickets.now)) }
{
    out.push_str("round ")?;
    let Some((first, rest)) = tickets.split_first() else {
        return out.push_str("none");
    };
    print_ticket(alloc, out, first)?;
    for ticket in rest {
        out.push_str(", ")?;
        print_ticket(alloc, out, ticket)?;
    }
    Ok(())
}

// A ticket with its verdict.
fn print_ticket(alloc: Global, out: &mut String, ticket: &Ticketed) -> Result<(), Memory>
    ensures { OnOk result (string_bytes out.new ≡ string_bytes out.old ++ ticket_text ticket.now) }
{
    let number = ticket.ticket;
    match &ticket.verdict {
        Verdict::Accepted => write!(out, "{number} accepted"),
        Verdict::Refused(fault) => {
            let fault = tx_fault_text(alloc, fault)?;
            write!(out, "{number} refused {fault}")
        }
    }
}
