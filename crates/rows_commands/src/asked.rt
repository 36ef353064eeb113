//! The command line of a row.
use crate::shown::Part;
use rows_given::Given;
use rows_text::{RowFault, first, number};
use std::alloc::Global;

/// A command line, with more words behind it, and which of its lines the row prints.
#[derive(Clone, Copy)]
pub struct Asked<'l> {
    pub line: &'l str,
    pub more: &'l str,
    pub part: Part,
}

/// What a row asks for, whose text is kept first.
pub fn what_is_asked<'l>(
    alloc: Global,
    given: &mut Given,
    word: &str,
    rest: &'l str,
) -> Result<Asked<'l>, RowFault> {
    let (part, text) = match word {
        "last" => {
            let (count, text) = first(rest);
            (Part::Last(number(count)?), text)
        }
        "alarms" => (Part::Alarms, rest),
        _ => (Part::All, rest),
    };
    let (name, line) = line_of(given.has_state(), word)?;
    let more = if word == "marlowe" || word == "next" {
        text
    } else {
        ""
    };
    if !name.is_empty() && !text.is_empty() {
        given.keep(alloc, name, text)?;
    }
    Ok(Asked { line, more, part })
}

// The file that keeps the text of a row, if one does, and its command line.
fn line_of(has_state: bool, word: &str) -> Result<(&'static str, &'static str), RowFault> {
    let asked = match word {
        "marlowe" => ("", ""),
        "run" => (
            "transaction.json",
            "run contract.json state.json transaction.json",
        ),
        "trace" if has_state => (
            "transactions.json",
            "trace contract.json transactions.json --state state.json",
        ),
        "trace" => ("transactions.json", "trace contract.json transactions.json"),
        "next" if has_state => ("", "next contract.json state.json"),
        "next" => ("", "next contract.json"),
        "table" => ("contract.json", "table contract.json"),
        "analyse" | "alarms" if has_state => ("", "analyse contract.json state.json"),
        "analyse" | "alarms" => ("", "analyse contract.json"),
        "json" if has_state => ("", "analyse contract.json state.json --json"),
        "json" => ("", "analyse contract.json --json"),
        "play" | "last" => ("scenario.json", "play scenario.json --one"),
        "threads" => ("scenario.json", "play scenario.json"),
        _ => return Err(RowFault::NoSuchRow),
    };
    Ok(asked)
}
