//! Replies as they are printed.
use crate::shown::put_look;
use chain::{Call, Reply, Ticketed};
use contract::{Memory, TryClone};
use ledger::Look;
use rows_text::{
    Known, RowFault, called, put_words, refusal_line, replace, verdict_line, word_of_id,
};
use std::alloc::{AllocError, Global};

/// What is printed. Dropped once: who owns it is generic in it, so that no proof walks through its drop.
pub trait Printed: Drop {
    fn lines(&self, alloc: Global, known: &Known) -> Result<String, AllocError>;

    /// Keeps a copy of the look that it is, if it is one.
    fn keep(&self, place: &mut Option<Look>) -> Result<(), AllocError>;
}

impl Printed for Reply {
    fn lines(&self, alloc: Global, known: &Known) -> Result<String, AllocError> {
        let mut lines = headline(alloc, known, self)?;
        if let Reply::Look(look) = self {
            put_look(alloc, &mut lines, known, look)?;
        }
        Ok(lines)
    }

    fn keep(&self, place: &mut Option<Look>) -> Result<(), AllocError> {
        if let Reply::Look(look) = self {
            replace(place, Some(look.try_clone()?));
        }
        Ok(())
    }
}

/// The lines for a reply, of which the call gives two copies. A look is kept.
pub fn reply_lines<P: Printed>(
    alloc: Global,
    known: &Known,
    place: &mut Option<Look>,
    replies: Result<(P, P), Memory>,
) -> Result<String, RowFault> {
    let (mine, told) = called(replies)?;
    let lines = mine.lines(alloc, known)?;
    told.keep(place)?;
    Ok(lines)
}

/// The same for a reply that is lent.
pub fn put_reply(
    alloc: Global,
    known: &Known,
    place: &mut Option<Look>,
    reply: &Reply,
) -> Result<String, RowFault> {
    let lines = reply.lines(alloc, known)?;
    reply.keep(place)?;
    Ok(lines)
}

/// The first line for a reply.
pub fn headline(alloc: Global, known: &Known, reply: &Reply) -> Result<String, AllocError> {
    match reply {
        Reply::Published(id) => {
            let script = known.word_of_script(alloc, id)?;
            format!(in alloc; "published {script}")
        }
        Reply::NotCompiled(fault) => format!(in alloc; "refused {fault:?}"),
        Reply::IdInUse => String::from_str(alloc, "in use"),
        Reply::Advanced => String::from_str(alloc, "advanced"),
        Reply::Backward => String::from_str(alloc, "backward"),
        Reply::Look(look) => format!(in alloc; "tick {}", look.tick),
        Reply::Accepted(id) => {
            let name = word_of_id(alloc, &known.sent, id)?;
            format!(in alloc; "accepted {name}")
        }
        Reply::Refused(fault) => refusal_line(alloc, fault),
        Reply::Ticket(ticket) => format!(in alloc; "ticket {ticket}"),
        Reply::Full => String::from_str(alloc, "full"),
        Reply::Round(places) => round_line(alloc, places.as_slice()),
    }
}

// The tickets that were taken out, each with its verdict.
fn round_line(alloc: Global, places: &[Ticketed]) -> Result<String, AllocError> {
    match places.split_first() {
        Some((first, rest)) => {
            let mut line = String::new(alloc);
            put_place(alloc, &mut line, first)?;
            for place in rest {
                line.push_str(", ")?;
                put_place(alloc, &mut line, place)?;
            }
            Ok(line)
        }
        None => String::from_str(alloc, "none"),
    }
}

fn put_place(alloc: Global, line: &mut String, place: &Ticketed) -> Result<(), AllocError> {
    put_words(line, format!(in alloc; "{} ", place.ticket))?;
    put_words(line, verdict_line(alloc, &place.verdict))
}

/// The word for a call.
pub fn word_of_call(call: &Call) -> &str {
    match call {
        Call::Publish { .. } => "publish",
        Call::Advance(_) => "advance",
        Call::Look(_) => "look",
        Call::Submit(_) => "submit",
        Call::Enqueue(_) => "enqueue",
        Call::Round(_) => "round",
    }
}
