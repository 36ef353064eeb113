//! What is printed for a row.
use crate::asked::what_is_asked;
use crate::examples::example;
use crate::faults::play_faults;
use crate::files::{loaded, removed, saved};
use crate::folder::Folder;
use crate::shown::shown;
use crate::streams::streamed;
use collections::Memory;
use marlowe_commands::{Command, NoWatch, Printed, command};
use rows_given::Given;
use rows_text::{RowFault, first};
use rows_values::answer_of;
use std::alloc::Global;
use std::rt::Files;
use std::sync::Wait;
use std::thread::Threads;

/// The answer to a line, if it is a row.
pub fn answer<R: Files + AllocGlobal + Threads + Wait + Sync>(
    rt: &R,
    given: &mut Given,
    line: &str,
) -> Result<Option<Vec<u8>>, RowFault> {
    let (word, rest) = first(line);
    if given.keeps(rt.alloc(), word, rest)? {
        return Ok(None);
    }
    let answer = match word {
        "marlowe" | "run" | "trace" | "next" | "table" => command_row(rt, given, word, rest),
        "play" | "last" | "threads" => command_row(rt, given, word, rest),
        "analyse" | "alarms" | "json" => command_row(rt, given, word, rest),
        "example" => example(rt, given, rest),
        "save" => saved(rt, given, rest),
        "remove" => removed(rt, rest),
        "load" => loaded(rt, given, rest),
        "texts" if rest == "PlayFault" => play_faults(rt.alloc()),
        _ => answer_of(rt.alloc(), given, word, rest),
    };
    Ok(Some(answer?))
}

fn command_row<R: Files + AllocGlobal + Threads + Wait + Sync>(
    rt: &R,
    given: &mut Given,
    word: &str,
    rest: &str,
) -> Result<Vec<u8>, RowFault> {
    let asked = what_is_asked(rt.alloc(), given, word, rest)?;
    let printed = printed(rt, given, asked.line, asked.more)?;
    Ok(shown(rt.alloc(), &printed, asked.part)?)
}

/// What the program prints for the words behind its name, and more behind these; of a stream, what it answers to the requests that are given as
/// standard input.
pub fn printed<R: Files + AllocGlobal + Threads + Wait + Sync>(
    rt: &R,
    given: &Given,
    line: &str,
    more: &str,
) -> Result<Printed, RowFault> {
    let alloc = rt.alloc();
    let mut words = Vec::new(alloc);
    words.push(String::from_str(alloc, "marlowe")?)?;
    put_words(alloc, &mut words, line)?;
    put_words(alloc, &mut words, more)?;
    match command(rt, &Folder { rt, given }, &NoWatch, words.as_slice(), false)? {
        Command::Printed(printed) => Ok(printed),
        Command::Serve(readable) => streamed(rt, given, readable),
    }
}

fn put_words(alloc: Global, words: &mut Vec<String>, line: &str) -> Result<(), Memory> {
    for word in line.split_whitespace() {
        words.push(String::from_str(alloc, word)?)?;
    }
    Ok(())
}
