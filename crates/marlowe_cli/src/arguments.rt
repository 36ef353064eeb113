//! The words of the command line.
use std::io::ErrorKind;
use std::rt::Env;
use std::{env, io};

/// Why a command line has no words.
#[derive(Clone, Copy, Debug, PartialEq, Eq)]
pub enum WordsFault {
    /// A word is no text in UTF-8.
    NoText = 1,
    /// Memory was refused.
    Memory = 2,
}

/// The words of the command line, the first of which is the program's own name.
pub fn words<R: Env + AllocGlobal>(rt: &R) -> Result<Vec<String>, WordsFault> {
    match collected(rt) {
        Ok(words) => Ok(words),
        Err(error) => match error.kind() {
            ErrorKind::OutOfMemory => Err(WordsFault::Memory),
            _ => Err(WordsFault::NoText),
        },
    }
}

fn collected<R: Env + AllocGlobal>(rt: &R) -> io::Result<Vec<String>> {
    let words = env::args(rt)?.collect(rt.alloc())?;
    Ok(words)
}
