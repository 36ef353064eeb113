//! Amounts of tokens, as they are read and printed.
ghost use Rattle.std.specs.Prelude.{IsTrue};
ghost use Rattle.roles.specs.Bundle.Bundles.{AllPositive};

use crate::carried::{both, done, put_in, put_words};
use crate::fault::RowFault;
use crate::words::{bytes, number, sides, text};
use contract::{Entries, Token};
use roles::Bundle;
use std::alloc::{AllocError, Global};

type Entry = (Token, i128);

/// A bundle, from `TOKEN AMOUNT ..` in any order, each token once and each amount above 0.
pub fn bundle_of(alloc: Global, words: &str) -> Result<Bundle, RowFault> {
    match Entries::from_vec(entries_of(alloc, words)?) {
        Some(entries) => positive(entries),
        None => Err(RowFault::NoSuchRow),
    }
}

/// The entries of amounts, from `TOKEN AMOUNT ..` in any order, each token once.
pub fn amounts_of(alloc: Global, words: &str) -> Result<Entries<Token, i128>, RowFault> {
    match Entries::from_vec(entries_of(alloc, words)?) {
        Some(entries) => Ok(entries),
        None => Err(RowFault::NoSuchRow),
    }
}

fn entries_of(alloc: Global, words: &str) -> Result<Vec<Entry>, RowFault> {
    let mut entries = Vec::new(alloc);
    let put = put_entries(alloc, &mut entries, words);
    done(entries, put)
}

fn put_entries(alloc: Global, entries: &mut Vec<Entry>, words: &str) -> Result<(), RowFault> {
    let mut words = words.split_whitespace();
    while let Some(token) = words.next() {
        let amount = number(words.next().unwrap_or(""));
        put_in(entries, both(token_of(alloc, token), amount))?;
    }
    Ok(())
}

/// A token, from `ada` or `SYMBOL.NAME`.
pub fn token_of(alloc: Global, word: &str) -> Result<Token, RowFault> {
    let (symbol, name) = match word {
        "ada" => ("", ""),
        _ => sides(word, '.')?,
    };
    let (symbol, name) = both(bytes(alloc, symbol), text(alloc, name))?;
    Ok(Token { symbol, name })
}

fn positive(entries: Entries<Token, i128>) -> Result<Bundle, RowFault> {
    if are_positive(entries.as_slice()) {
        Ok(Bundle::from_entries(entries))
    } else {
        Err(RowFault::NoSuchRow)
    }
}

fn are_positive(entries: &[Entry]) -> bool
    ensures { IsTrue result → AllPositive entries.now }
{
    match entries.split_first() {
        Some((first, rest)) => first.1 > 0 && are_positive(rest),
        None => true,
    }
}

/// Puts ` TOKEN AMOUNT` for each token at the end, in the order of the tokens.
pub fn put_amounts(alloc: Global, line: &mut String, bundle: &Bundle) -> Result<(), AllocError> {
    for entry in bundle.entries() {
        put_entry(alloc, line, entry)?;
    }
    Ok(())
}

fn put_entry(alloc: Global, line: &mut String, entry: &Entry) -> Result<(), AllocError> {
    line.push(' ')?;
    put_words(line, word_of(alloc, &entry.0))?;
    put_words(line, format!(in alloc; " {}", entry.1))
}

/// The word for a token: `ada` or `SYMBOL.NAME`.
pub fn word_of(alloc: Global, token: &Token) -> Result<String, AllocError> {
    let name = token.name.as_str();
    if token.symbol.as_slice().is_empty() && name.is_empty() {
        return String::from_str(alloc, "ada");
    }
    let symbol = hex::encode(alloc, token.symbol.as_slice())?;
    format!(in alloc; "{symbol}.{name}")
}
