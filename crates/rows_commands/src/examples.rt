//! Examples: a folder for each, with the three files of a run and what the program prints for them.
use crate::answers::printed;
use crate::shown::{Part, shown};
use marlowe_commands::Printed;
use marlowe_io::{LoadFault, load_file};
use rows_given::Given;
use rows_text::RowFault;
use std::rt::Files;
use std::sync::Wait;
use std::thread::Threads;

/// Runs the example of a folder, and prints its table: `as written`, or what comes in place of it.
pub fn example<R: Files + AllocGlobal + Threads + Wait + Sync>(
    rt: &R,
    given: &Given,
    folder: &str,
) -> Result<Vec<u8>, RowFault> {
    let alloc = rt.alloc();
    let run = format!(in alloc;
        "run {folder}/contract.json {folder}/state.json {folder}/transaction.json"
    )?;
    let run = printed(rt, given, run.as_str(), "")?;
    if !is_as_in(rt, &run, folder, "output.json", "refusal.txt")? {
        return Ok(shown(alloc, &run, Part::All)?);
    }
    let table = format!(in alloc; "table {folder}/contract.json")?;
    let table = printed(rt, given, table.as_str(), "")?;
    let told: &str = if is_as_in(rt, &table, folder, "table.txt", "table.txt")? {
        "as written"
    } else {
        "another table"
    };
    Ok(Vec::from_slice(alloc, told.as_bytes())?)
}

// Whether what is printed is what a file of the folder holds, one on standard output with status 0, or one on standard error with
// status 1.
fn is_as_in<R: Files + AllocGlobal>(
    rt: &R,
    printed: &Printed,
    folder: &str,
    output: &str,
    refusal: &str,
) -> Result<bool, RowFault> {
    match printed.status {
        0 => is_in_file(rt, folder, output, printed.output.as_slice()),
        1 => is_in_file(rt, folder, refusal, printed.errors.as_slice()),
        _ => Ok(false),
    }
}

// Whether a file of a folder is there and holds a text.
fn is_in_file<R: Files + AllocGlobal>(
    rt: &R,
    folder: &str,
    name: &str,
    text: &[u8],
) -> Result<bool, RowFault> {
    let path = format!(in rt.alloc(); "{folder}/{name}")?;
    match load_file(rt, path.as_str()) {
        Ok(written) => Ok(written.as_slice() == text),
        Err(LoadFault::Unreadable) => Ok(false),
        Err(LoadFault::Memory) => Err(RowFault::Memory),
    }
}
