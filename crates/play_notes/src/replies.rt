//! Why something was refused, as replies tell it.
ghost use Rattle.std.specs.Prelude.{◌≡◌, ◌++◌, OnOk, string_bytes};
ghost use Rattle.play_notes.specs.Notes as told;
ghost use Rattle.play_notes.specs.Notes.{verdict_note, round_notes, reply_notes};

use builder_spec::{Reply, Ticketed, Verdict};
use contract::Memory;
use fault_words::rule_words;
use std::alloc::Global;
use std::fmt::Write;

// Puts a note at the end of a text.
fn put_note(out: &mut String, text: &str) -> Result<(), Memory>
    ensures { OnOk result (string_bytes out.new ≡ string_bytes out.old ++ told.note text.now) }
{
    write!(out, "    {text}\n")
}

// Puts what is told of the transaction of a ticket, if it was refused.
fn put_verdict(
    alloc: Global,
    out: &mut String,
    ticket: u64,
    verdict: &Verdict,
) -> Result<(), Memory>
    ensures { OnOk result (string_bytes out.new ≡ string_bytes out.old ++ verdict_note ticket verdict.now) }
{
    match verdict {
        Verdict::Accepted => Ok(()),
        Verdict::Refused(fault) => {
            let words = rule_words(alloc, fault)?;
            write!(out, "    ticket {ticket}: {words}\n")
        }
    }
}

// Puts what is told of each place of a round that was refused.
fn put_round(alloc: Global, out: &mut String, tickets: &[Ticketed]) -> Result<(), Memory>
    ensures { OnOk result (string_bytes out.new ≡ string_bytes out.old ++ round_notes tickets.now) }
{
    for place in tickets {
        put_verdict(alloc, out, place.ticket, &place.verdict)?;
    }
    Ok(())
}

/// Puts what is told of a reply, if it refuses something.
pub(crate) fn put_reply(alloc: Global, out: &mut String, reply: &Reply) -> Result<(), Memory>
    ensures { OnOk result (string_bytes out.new ≡ string_bytes out.old ++ reply_notes reply.now) }
{
    match reply {
        Reply::Refused(fault) => {
            let words = rule_words(alloc, fault)?;
            put_note(out, words.as_str())
        }
        Reply::Round(tickets) => put_round(alloc, out, tickets.as_slice()),
        Reply::Full => put_note(out, "the pool has 1024 transactions, and takes no more"),
        Reply::Backward => put_note(out, "the tick is later already"),
        _ => Ok(()),
    }
}
