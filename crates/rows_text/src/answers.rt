//! What is printed for rows.
use crate::fault::RowFault;
use crate::report::Report;
use std::alloc::AllocError;
use std::rt::Files;
use std::{fs, io};

/// The text of the file of that name which lies beside the one that is reported.
pub fn text_beside<R: Files + AllocGlobal>(
    rt: &R,
    report: &Report<'_>,
    name: &str,
) -> io::Result<String> {
    let folder = match report.path().rsplit_once('/') {
        Some((folder, _)) => folder,
        None => ".",
    };
    let path = format!(in rt.alloc(); "{folder}/{name}")?;
    fs::read_to_string(rt, path.as_str())
}

/// Puts the answer to a line beside what is wanted. Whether its call was refused memory, so that the line is to be taken once more:
/// then the word `memory` stands there.
pub fn put_answer(
    report: &mut Report<'_>,
    answer: Result<Option<Vec<u8>>, RowFault>,
) -> io::Result<bool> {
    match answer {
        Ok(Some(answer)) => report.come(answer.as_slice())?,
        Ok(None) => {}
        Err(RowFault::NoSuchRow) => report.come(b"no such row")?,
        Err(RowFault::Refused) => {
            report.come(b"memory")?;
            return Ok(true);
        }
        Err(RowFault::Memory) => return Err(io::Error::from(AllocError)),
        Err(RowFault::Failed) => return Err(io::Error::from(io::ErrorKind::Other)),
    }
    Ok(false)
}

/// An answer that is a text, as bytes.
pub fn in_bytes(answer: Result<Option<String>, RowFault>) -> Result<Option<Vec<u8>>, RowFault> {
    match answer {
        Ok(Some(text)) => Ok(Some(text.into_bytes())),
        Ok(None) => Ok(None),
        Err(fault) => Err(fault),
    }
}
