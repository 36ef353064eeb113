//! Lines, whoever answers calls.
use crate::asked::resolved_lines;
use crate::built::build;
use crate::desk::{Desk, is_written, written};
use crate::faults::{fault_copies_line, texts_row};
use crate::parts::lent_parts;
use crate::played::played;
use builder::resolve_parts;
use chain::Call;
use rows_text::RowFault;
use rows_transactions::{copied, judged_stubbornly};
use std::alloc::Global;

/// Who answers calls: a chain, or the seats of a hub.
pub trait Calls {
    /// Makes a call by a seat, with the checks at hand if it takes any: what is printed for the reply. A look is kept.
    fn call(
        &mut self,
        alloc: Global,
        desk: &mut Desk,
        seat: u64,
        call: Call,
    ) -> Result<String, RowFault>;

    /// What is printed for a question.
    fn question(
        &self,
        alloc: Global,
        desk: &mut Desk,
        word: &str,
        rest: &str,
    ) -> Result<String, RowFault>;
}

/// What is printed for a line, from its word and what follows, if anything.
pub fn taken<C: Calls>(
    alloc: Global,
    calls: &mut C,
    desk: &mut Desk,
    word: &str,
    rest: &str,
) -> Result<Option<String>, RowFault> {
    match word {
        "" | "-" => Ok(None),
        _ if is_written(word) => {
            written(alloc, desk, word, rest)?;
            Ok(None)
        }
        _ => Ok(Some(answered(alloc, calls, desk, word, rest)?)),
    }
}

fn answered<C: Calls>(
    alloc: Global,
    calls: &mut C,
    desk: &mut Desk,
    word: &str,
    rest: &str,
) -> Result<String, RowFault> {
    match word {
        "publish"
        | "nested"
        | "wide"
        | "advance"
        | "look"
        | "submit"
        | "enqueue"
        | "enqueues"
        | "round" => played(alloc, calls, desk, word, rest),
        "build" => build(alloc, desk, rest),
        "seen" => seen_lines(alloc, desk),
        "seen_by_parts" => seen_by_parts_lines(alloc, desk),
        "texts" => texts_row(alloc, rest),
        "copies" => copies(alloc, calls, desk, rest),
        "check" if rest == "stubborn" => {
            judged_stubbornly(alloc, &mut desk.tx, &mut desk.finds, &desk.known)
        }
        "transaction"
        | "asks"
        | "datum_hash"
        | "sums"
        | "totals"
        | "add"
        | "subtract"
        | "room"
        | "apart" => {
            rows_transactions::answered(alloc, &mut desk.tx, &desk.finds, &desk.known, word, rest)
        }
        _ => calls.question(alloc, desk, word, rest),
    }
}

// Whether copies are the same, from what of.
fn copies<C: Calls>(
    alloc: Global,
    calls: &mut C,
    desk: &mut Desk,
    sort: &str,
) -> Result<String, RowFault> {
    match sort {
        "BuildFault" => fault_copies_line(alloc),
        "transaction" | "rooms" | "published" | "checks" | "TxFault" => {
            copied(alloc, &desk.tx, &desk.known, &desk.checks, sort)
        }
        _ => calls.question(alloc, desk, "copies", sort),
    }
}

// What the last look holds of what the transaction names.
fn seen_lines(alloc: Global, desk: &Desk) -> Result<String, RowFault> {
    match &desk.look {
        Some(look) => {
            let found = look.resolve(alloc, &desk.tx);
            resolved_lines(alloc, &desk.known, &desk.tx, found)
        }
        None => Err(RowFault::NoSuchRow),
    }
}

// What the looks of the parts hold of what the transaction names.
fn seen_by_parts_lines(alloc: Global, desk: &Desk) -> Result<String, RowFault> {
    let parts = lent_parts(alloc, &desk.parts)?;
    let found = resolve_parts(alloc, &parts, &desk.tx);
    resolved_lines(alloc, &desk.known, &desk.tx, found)
}
