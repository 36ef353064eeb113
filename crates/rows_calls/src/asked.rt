//! Questions.
use crate::replies::{headline, word_of_call};
use crate::shown::put_output;
use chain::Entry;
use contract::Memory;
use ledger::{Output, OutputRef, Resolved, Scripts, Spend, Tx};
use rows_text::{Identified, Known, RowFault, called, put_words, word_of_reference};
use std::alloc::{AllocError, Global};

/// A line for each entry: its place, its seat and number, the call, and the first line of the reply.
pub fn history_lines(
    alloc: Global,
    known: &Known,
    entries: &[Entry],
) -> Result<String, AllocError> {
    let mut lines = String::from_str(alloc, "history")?;
    for (place, entry) in entries.iter().enumerate() {
        put_entry(alloc, &mut lines, known, place, entry)?;
    }
    Ok(lines)
}

fn put_entry(
    alloc: Global,
    lines: &mut String,
    known: &Known,
    place: usize,
    entry: &Entry,
) -> Result<(), AllocError> {
    let call = word_of_call(&entry.call);
    put_words(
        lines,
        format!(in alloc; "\n {place} {}.{} {call} ", entry.seat, entry.number),
    )?;
    put_words(lines, headline(alloc, known, &entry.reply))
}

/// A line for each input with what is found, and one for each script that is found, in the order of their publishing. It is
/// generic in the scripts, so that no proof walks through their drop.
pub fn resolved_lines<V: Drop>(
    alloc: Global,
    known: &Known,
    tx: &Tx,
    found: Result<Resolved<V>, Memory>,
) -> Result<String, RowFault> {
    let found = called(found)?;
    let mut lines = String::from_str(alloc, "found")?;
    put_found(
        alloc,
        &mut lines,
        known,
        tx.inputs.as_slice(),
        found.outputs.as_slice(),
    )?;
    put_scripts(alloc, &mut lines, known, &found.scripts)?;
    Ok(lines)
}

/// A line for each input with what is found.
pub fn put_found(
    alloc: Global,
    lines: &mut String,
    known: &Known,
    inputs: &[Spend],
    outputs: &[Option<Output>],
) -> Result<(), AllocError> {
    for (input, output) in inputs.iter().zip(outputs) {
        lines.push_str("\n ")?;
        put_words(
            lines,
            word_of_reference(alloc, &known.sent, &input.reference),
        )?;
        lines.push(' ')?;
        put_one_found(alloc, lines, known, &input.reference, output)?;
    }
    Ok(())
}

fn put_one_found(
    alloc: Global,
    lines: &mut String,
    known: &Known,
    reference: &OutputRef,
    output: &Option<Output>,
) -> Result<(), AllocError> {
    match output {
        Some(output) => put_output(alloc, lines, known, output, known.datum_at(reference)),
        None => lines.push_str("nothing"),
    }
}

/// A line for each script that is found, in the order of their publishing.
pub fn put_scripts<V>(
    alloc: Global,
    lines: &mut String,
    known: &Known,
    scripts: &Scripts<V>,
) -> Result<(), AllocError> {
    for named in &known.published {
        if scripts.get(&named.id()).is_some() {
            lines.push_str("\n @")?;
            lines.push_str(named.name())?;
        }
    }
    Ok(())
}
