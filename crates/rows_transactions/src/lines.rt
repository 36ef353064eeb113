//! Lines as they are answered.
use contract::{Memory, TryClone};
use rows_text::{RowFault, done, put_beside, put_copies, put_copy, put_words};
use std::alloc::{AllocError, Global};

/// A line, or the want of memory for it. So who answers with it has one way out.
pub fn in_row(line: Result<String, AllocError>) -> Result<String, RowFault> {
    Ok(line?)
}

/// Bytes and others in hexadecimal, a line for each.
pub fn in_two_lines(alloc: Global, first: &[u8], second: &[u8]) -> Result<String, AllocError> {
    let mut lines = hex::encode(alloc, first)?;
    let put = put_second(alloc, &mut lines, second);
    done(lines, put)
}

fn put_second(alloc: Global, lines: &mut String, second: &[u8]) -> Result<(), AllocError> {
    lines.push('\n')?;
    put_words(lines, hex::encode(alloc, second))
}

/// Puts a name at the end, and behind it whether a copy of a thing is the same.
pub fn put_named<T: TryClone + PartialEq + Drop>(
    lines: &mut String,
    name: &str,
    thing: &T,
) -> Result<(), Memory> {
    lines.push_str(name)?;
    put_copy(lines, thing)
}

/// Puts a name at the end, and behind it whether a copy of each thing is the same, and each thing as the one before it.
pub fn put_all<T: TryClone + PartialEq + Drop>(
    lines: &mut String,
    name: &str,
    things: &[T],
) -> Result<(), Memory> {
    lines.push_str(name)?;
    put_copies(lines, things)?;
    put_beside(lines, things)
}
