//! Rows on files.
use marlowe_io::{LoadFault, load_file};
use rows_given::Given;
use rows_text::RowFault;
use std::fs;
use std::rt::Files;

/// Writes the longer text to a file.
pub fn saved<R: Files + AllocGlobal>(
    rt: &R,
    given: &Given,
    path: &str,
) -> Result<Vec<u8>, RowFault> {
    let text = given.file("text").ok_or(RowFault::NoSuchRow)?;
    fs::write(rt, path, text)?;
    Ok(Vec::from_slice(rt.alloc(), b"saved")?)
}

/// Removes a file.
pub fn removed<R: Files + AllocGlobal>(rt: &R, path: &str) -> Result<Vec<u8>, RowFault> {
    fs::remove_file(rt, path)?;
    Ok(Vec::from_slice(rt.alloc(), b"removed")?)
}

/// How many bytes the program reads of a file, or why it reads none.
pub fn loaded<R: Files + AllocGlobal>(
    rt: &R,
    given: &mut Given,
    path: &str,
) -> Result<Vec<u8>, RowFault> {
    match load_file(rt, path) {
        Ok(text) => {
            let line = format!(in rt.alloc(); "{} bytes", text.len())?;
            given.keep_bytes(rt.alloc(), "text", text)?;
            Ok(line.into_bytes())
        }
        Err(LoadFault::Unreadable) => Ok(Vec::from_slice(rt.alloc(), b"unreadable")?),
        Err(LoadFault::Memory) => Err(RowFault::Memory),
    }
}
