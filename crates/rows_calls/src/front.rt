//! The front of the pool. What owns checks and resolutions is generic in their scripts, so that no proof walks through the drop of
//! these.
use crate::asked::{put_found, put_scripts};
use contract::Memory;
use ledger::{Checked, Resolved, Tx, Validator, tx_id};
use rows_text::{Known, RowFault, called, keep_check, put_words, word_of_id};
use std::alloc::{AllocError, Global};

/// How many of the pending transactions come first, and for each its name, then a line for each input with what is found, and
/// one for each script.
pub fn front_lines<V: Drop>(
    alloc: Global,
    known: &Known,
    jobs: Result<Vec<(Tx, Resolved<V>)>, Memory>,
) -> Result<String, RowFault> {
    let jobs = called(jobs)?;
    let mut lines = format!(in alloc; "front {}", jobs.len())?;
    for job in &jobs {
        put_job(alloc, &mut lines, known, &job.0, &job.1)?;
    }
    Ok(lines)
}

fn put_job<V>(
    alloc: Global,
    lines: &mut String,
    known: &Known,
    tx: &Tx,
    found: &Resolved<V>,
) -> Result<(), AllocError> {
    put_name(alloc, lines, known, tx)?;
    put_found(
        alloc,
        lines,
        known,
        tx.inputs.as_slice(),
        found.outputs.as_slice(),
    )?;
    put_scripts(alloc, lines, known, &found.scripts)
}

fn put_name(alloc: Global, lines: &mut String, known: &Known, tx: &Tx) -> Result<(), AllocError> {
    let id = tx_id(alloc, tx)?;
    lines.push_str("\n ")?;
    put_words(lines, word_of_id(alloc, &known.sent, &id))
}

/// Checks these transactions with what is found of each, and keeps the checks at hand: how many, and a line for each with its
/// name and verdict. Where memory is refused, no more are at hand than before.
pub fn keep_checks<V: Validator + Drop>(
    alloc: Global,
    known: &Known,
    checks: &mut Vec<Checked<V>>,
    jobs: Result<Vec<(Tx, Resolved<V>)>, Memory>,
) -> Result<String, RowFault> {
    let jobs = called(jobs)?;
    let before = checks.len();
    let told = keep_each(alloc, known, checks, jobs);
    if told.is_err() {
        checks.truncate(before);
    }
    told
}

fn keep_each<V: Validator + Drop>(
    alloc: Global,
    known: &Known,
    checks: &mut Vec<Checked<V>>,
    jobs: Vec<(Tx, Resolved<V>)>,
) -> Result<String, RowFault> {
    let mut lines = format!(in alloc; "checked {}", jobs.len())?;
    for (tx, found) in jobs {
        put_name(alloc, &mut lines, known, &tx)?;
        put_verdict(&mut lines, keep_check::<V>(alloc, checks, &tx, Ok(found))?)?;
    }
    Ok(lines)
}

fn put_verdict(lines: &mut String, verdict: String) -> Result<(), AllocError> {
    lines.push(' ')?;
    lines.push_str(verdict.as_str())
}
