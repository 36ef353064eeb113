//! Words of a line.
use crate::fault::RowFault;
use contract::{Bytes, Text};
use hex::FromHex;
use std::alloc::Global;
use std::str::FromStr;

/// The first word of a line, and the rest of it.
pub fn parts(line: &str) -> Result<(&str, &str), RowFault> {
    sides(line, ' ')
}

/// What stands before the first such letter, and behind it.
pub fn sides(text: &str, letter: char) -> Result<(&str, &str), RowFault> {
    text.split_once(letter).ok_or(RowFault::NoSuchRow)
}

/// The first word of a line, and the rest of it, which may be nothing.
pub fn first(line: &str) -> (&str, &str) {
    line.split_once(' ').unwrap_or((line, ""))
}

/// The number that a word spells.
pub fn number<T: FromStr + Drop>(word: &str) -> Result<T, RowFault>
where
    T::Err: Drop,
{
    match word.parse() {
        Ok(number) => Ok(number),
        Err(_) => Err(RowFault::NoSuchRow),
    }
}

/// A word as a text.
pub fn text(alloc: Global, word: &str) -> Result<Text, RowFault> {
    Ok(Text::from_string(String::from_str(alloc, word)?))
}

/// The bytes that a word spells in hexadecimal.
pub fn bytes(alloc: Global, word: &str) -> Result<Bytes, RowFault> {
    Ok(Bytes::from_vec(hex::decode(alloc, word)?))
}

/// The id of a transaction or of a script that a word spells in hexadecimal.
pub fn id(word: &str) -> Result<[u8; 32], RowFault> {
    Ok(<[u8; 32] as FromHex>::from_hex(word)?)
}
