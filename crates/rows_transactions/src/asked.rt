//! What is printed for rows.
use crate::asks::asks_line;
use crate::checks::{check_line, rules_line, stubborn_line};
use crate::copies::{amounts_room, found_copies, published_copies, rooms, tx_copies};
use crate::data::datum_row;
use crate::faults::{apart_row, copies_row};
use crate::finds::Finds;
use crate::lines::{in_row, in_two_lines};
use crate::sums::{added, are_sums, subtracted, totals};
use contract::{Items, Same};
use roles::{Checked, Resolved, Tx, Validator, encode_tx, tx_id};
use rows_text::{Known, RowFault, check_copies, keep_check, nothing, recheck_line, replace};
use std::alloc::{AllocError, Global};

/// The answer to a row of the transaction that is written, whatever it finds, or of a text of the row's own.
pub fn answered(
    alloc: Global,
    tx: &mut Tx,
    finds: &Finds,
    known: &Known,
    word: &str,
    rest: &str,
) -> Result<String, RowFault> {
    match word {
        "transaction" => in_row(finished(alloc, tx)),
        "asks" => asks_line(alloc, tx, &finds.outputs, &known.published),
        "datum_hash" => datum_row(alloc, known, rest),
        "sums" => are_sums(alloc, known, rest),
        "totals" => totals(alloc, rest),
        "add" => added(alloc, rest),
        "subtract" => subtracted(alloc, rest),
        "room" => amounts_room(alloc, rest),
        "apart" => apart_row(alloc, rest),
        _ => Err(RowFault::NoSuchRow),
    }
}

/// Whether copies are the same, from what of.
pub fn copied<V: Validator + Same + Drop>(
    alloc: Global,
    tx: &Tx,
    known: &Known,
    checks: &[Checked<V>],
    sort: &str,
) -> Result<String, RowFault> {
    match sort {
        "transaction" => in_row(tx_copies(alloc, tx)),
        "rooms" => in_row(rooms(alloc, tx)),
        "published" => in_row(published_copies(alloc, &known.published)),
        "checks" => in_row(check_copies(alloc, checks)),
        "TxFault" => in_row(copies_row(alloc)),
        _ => Err(RowFault::NoSuchRow),
    }
}

/// The answer to a row of the transaction that is written and what it finds. It is generic in the scripts, so that no proof walks
/// through their drop.
pub fn judged<V: Validator + Same + Drop>(
    alloc: Global,
    tx: &mut Tx,
    finds: &mut Finds,
    checks: &mut Vec<Checked<V>>,
    found: Result<Resolved<V>, RowFault>,
    word: &str,
) -> Result<String, RowFault> {
    match word {
        "check" => {
            let line = check_line(alloc, tx, found);
            begin_next(alloc, tx, finds, &line);
            line
        }
        "keep" => keep_check(alloc, checks, tx, found),
        "recheck" => recheck_line(alloc, checks, tx, found),
        "copies" => found_copies(alloc, found),
        _ => rules_line(alloc, tx, found, word),
    }
}

/// The verdict on the transaction that is written, by a script that refuses each step, after which the next one begins.
pub fn judged_stubbornly(
    alloc: Global,
    tx: &mut Tx,
    finds: &mut Finds,
    known: &Known,
) -> Result<String, RowFault> {
    let line = stubborn_line(alloc, tx, &finds.outputs, &known.published);
    begin_next(alloc, tx, finds, &line);
    line
}

// Begins the next transaction, which finds nothing yet, unless the row isn't answered.
fn begin_next(alloc: Global, tx: &mut Tx, finds: &mut Finds, line: &Result<String, RowFault>) {
    if line.is_ok() {
        replace(tx, nothing(alloc));
        replace(&mut finds.outputs, Items::new(alloc));
    }
}

// The bytes of a transaction and its id, after which the next one begins.
fn finished(alloc: Global, tx: &mut Tx) -> Result<String, AllocError> {
    let lines = spelled(alloc, tx)?;
    replace(tx, nothing(alloc));
    Ok(lines)
}

// The bytes of a transaction and its id, a line for each.
fn spelled(alloc: Global, tx: &Tx) -> Result<String, AllocError> {
    let bytes = encode_tx(alloc, tx)?;
    let id = tx_id(alloc, tx)?;
    in_two_lines(alloc, bytes.as_slice(), id.as_slice())
}
