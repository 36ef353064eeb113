//! Rows and what is printed for them.
use crate::faults::{apart_row, refused_row, texts_row};
use crate::lines::line_row;
use crate::numbers::{constant_row, large_row};
use crate::on_tables::run_row;
use crate::sorts::{Asked, sort_row};
use crate::spellings::{put_row, spell_row};
use crate::starts::start_row;
use crate::tables::table_row;
use crate::texts::text_row;
use rows_given::Given;
use rows_text::{RowFault, first};
use std::alloc::Global;

/// The answer to a row, from its word and what follows.
pub fn answer_of(
    alloc: Global,
    given: &Given,
    word: &str,
    rest: &str,
) -> Result<Vec<u8>, RowFault> {
    match word {
        "read" | "back" | "form" | "copy" | "compare" | "spell" => {
            let (sort, text) = first(rest);
            let text = text_of(alloc, given, text)?;
            value_row(alloc, given, word, sort, text.as_slice())
        }
        "both" => {
            let text = text_of(alloc, given, rest)?;
            run_row(alloc, given, text.as_slice())
        }
        "put" => put_row(alloc, rest),
        "constant" => constant_row(alloc, rest),
        "large" => large_row(alloc, rest),
        "start" => start_row(alloc, rest),
        "texts" => texts_row(alloc, rest),
        "apart" => apart_row(alloc, rest),
        "refused" => refused_row(alloc, rest),
        "line" => Ok(line_row(alloc, rest)?),
        _ => table_row(alloc, word, rest),
    }
}

// The answer to a row about a value of a sort, which a text stands for.
fn value_row(
    alloc: Global,
    given: &Given,
    word: &str,
    sort: &str,
    text: &[u8],
) -> Result<Vec<u8>, RowFault> {
    match word {
        "read" => text_row(alloc, sort, text, false),
        "back" => text_row(alloc, sort, text, true),
        "form" => sort_row(alloc, sort, text, Asked::Form),
        "copy" => sort_row(alloc, sort, text, Asked::Copy),
        "compare" => {
            let other = given.file("text").ok_or(RowFault::NoSuchRow)?;
            sort_row(alloc, sort, text, Asked::Compare(other))
        }
        _ => spell_row(alloc, sort, text),
    }
}

// The text of a row, or the longer text where the row has none.
fn text_of(alloc: Global, given: &Given, text: &str) -> Result<Vec<u8>, RowFault> {
    if !text.is_empty() {
        return given.whole(alloc, text);
    }
    let longer = given.file("text").unwrap_or(b"");
    Ok(Vec::from_slice(alloc, longer)?)
}
