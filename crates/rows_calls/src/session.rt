//! Sessions of rows: a chain, and what is written for it.
use crate::asked::{history_lines, resolved_lines};
use crate::copies::history_copies;
use crate::desk::{Desk, empty_desk};
use crate::front::{front_lines, keep_checks};
use crate::recorded::{record_copies, steps_lines};
use crate::replies::reply_lines;
use crate::started::started;
use crate::taking::{Calls, taken};
use chain::{Call, Chain};
use contract::Items;
use ledger::{Published, Resolved};
use rows_text::{RowFault, called, first, in_bytes, number, reference_of, replace};
use rows_transactions::{found, judged};
use std::alloc::Global;
use std::mem;

/// A chain, once it is begun, and what is written for it.
pub struct Session {
    pub chain: Option<Chain>,
    pub desk: Desk,
}

// Dropped once: the drop is written, not derived.
impl Drop for Session {
    fn drop(self) {
        let Session { chain: _, desk: _ } = self;
    }
}

impl Session {
    /// Nothing. Takes no memory.
    pub fn new(alloc: Global) -> Session {
        Session {
            chain: None,
            desk: empty_desk(alloc),
        }
    }

    /// The answer to a line, if it is a row.
    pub fn take(&mut self, alloc: Global, line: &str) -> Result<Option<Vec<u8>>, RowFault> {
        in_bytes(answered(alloc, self, line))
    }
}

// What is printed for a line, if anything.
fn answered(alloc: Global, session: &mut Session, line: &str) -> Result<Option<String>, RowFault> {
    let (word, rest) = first(line);
    match word {
        "#" => {
            begin_anew(alloc, session);
            Ok(None)
        }
        "begin" => Ok(Some(begun(alloc, session, rest)?)),
        _ => taken(alloc, &mut session.chain, &mut session.desk, word, rest),
    }
}

// Leaves nothing but the texts that have a name.
fn begin_anew(alloc: Global, session: &mut Session) {
    let texts = mem::replace(&mut session.desk.known.texts, Vec::new(alloc));
    replace(session, Session::new(alloc));
    replace(&mut session.desk.known.texts, texts);
}

// Begins the chain at a tick.
fn begun(alloc: Global, session: &mut Session, rest: &str) -> Result<String, RowFault> {
    let tick = number(rest)?;
    let outputs = mem::replace(&mut session.desk.genesis, Items::new(alloc));
    started(
        alloc,
        &mut session.chain,
        Chain::genesis(alloc, outputs, tick),
    )
}

impl Calls for Option<Chain> {
    fn call(
        &mut self,
        alloc: Global,
        desk: &mut Desk,
        seat: u64,
        call: Call,
    ) -> Result<String, RowFault> {
        match self {
            Some(chain) => {
                let replies = chain.step(alloc, seat, call, &desk.checks);
                reply_lines(alloc, &desk.known, &mut desk.look, replies)
            }
            None => Err(RowFault::NoSuchRow),
        }
    }

    fn question(
        &self,
        alloc: Global,
        desk: &mut Desk,
        word: &str,
        rest: &str,
    ) -> Result<String, RowFault> {
        if is_judged(word, rest) {
            let found = found_by(alloc, self, desk, word);
            return judged(
                alloc,
                &mut desk.tx,
                &mut desk.finds,
                &mut desk.checks,
                found,
                word,
            );
        }
        match self {
            Some(chain) => asked(alloc, chain, desk, word, rest),
            None => Err(RowFault::NoSuchRow),
        }
    }
}

// Whether a question is about the transaction that is written and what it finds.
fn is_judged(word: &str, rest: &str) -> bool {
    match word {
        "check" | "keep" | "recheck" | "local" | "spent" => rest.is_empty(),
        "copies" => rest == "found",
        _ => false,
    }
}

// What the transaction that is written finds: by the chain, or where none is begun, as is said.
fn found_by(
    alloc: Global,
    chain: &Option<Chain>,
    desk: &Desk,
    word: &str,
) -> Result<Resolved<Published>, RowFault> {
    match chain {
        Some(chain) => called(chain.resolve(alloc, &desk.tx)),
        None => found(alloc, &desk.finds, &desk.known, word),
    }
}

// What is printed for a question to a chain.
fn asked(
    alloc: Global,
    chain: &Chain,
    desk: &mut Desk,
    word: &str,
    rest: &str,
) -> Result<String, RowFault> {
    match word {
        "tick" => tick_line(alloc, chain),
        "history" => Ok(history_lines(alloc, &desk.known, chain.history())?),
        "copies" => Ok(history_copies(alloc, chain.history(), number(rest)?)?),
        "steps_of" => {
            let start = reference_of(&desk.known.sent, rest)?;
            steps_lines(alloc, chain.steps_of(alloc, &start))
        }
        "record_copies" => {
            let start = reference_of(&desk.known.sent, rest)?;
            record_copies(alloc, chain.steps_of(alloc, &start))
        }
        "resolve" => resolved_lines(alloc, &desk.known, &desk.tx, chain.resolve(alloc, &desk.tx)),
        "front" => front_lines(alloc, &desk.known, chain.front(alloc, number(rest)?)),
        "checks" => keep_checks(
            alloc,
            &desk.known,
            &mut desk.checks,
            chain.front(alloc, number(rest)?),
        ),
        _ => Err(RowFault::NoSuchRow),
    }
}

fn tick_line(alloc: Global, chain: &Chain) -> Result<String, RowFault> {
    let tick = chain.tick();
    Ok(format!(in alloc; "tick {tick}")?)
}
