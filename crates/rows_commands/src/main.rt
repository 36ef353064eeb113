//! `rows_commands`: worked rows of command lines of `marlowe` and of values, as data. It plays the files that its arguments name, line
//! by line, as `rows_text` says: below each row stands its answer.
//!
//! The lines before a row say what files hold, as `rows_given` says, in place of those that lie here. `rows_values` has the rows of what
//! only calls of the libraries say, as those of `data/values`: JSON, bytes, copies, texts of faults. These are rows of command lines:
//!
//! - `marlowe WORDS` is a command line whose words have no spaces in them, and standard input holds what the file `-` does;
//! - `run TEXT` keeps a text in `transaction.json` and is `marlowe run contract.json state.json transaction.json`;
//! - `trace TEXT` keeps a text in `transactions.json` and is `marlowe trace contract.json transactions.json`, with `--state state.json`
//!   behind it where a state is given;
//! - `next WORDS` is `marlowe next contract.json`, with `state.json` behind it where a state is given, and then these words;
//! - `table TEXT` keeps a text in `contract.json` and is `marlowe table contract.json`;
//! - `analyse` is `marlowe analyse contract.json`, with `state.json` behind it where a state is given, and `json` is that with `--json`;
//!   `alarms` prints the lines of `analyse` for alarms alone;
//! - `play TEXT` keeps a text in `scenario.json` and is `marlowe play scenario.json --one`, and `threads TEXT` the same without `--one`, for
//!   a scenario with one plan; `last N TEXT` prints the last N lines of `play`;
//! - without a text `run`, `trace`, `table`, `play`, `threads` and `last` take the file as it was kept;
//! - `example FOLDER` runs the three files of an example and prints its table: `as written`, or what is printed that isn't written there,
//!   or `another table`.
//!
//! Such a row prints the lines of standard output as they are, each line of standard error behind `stderr`, and `status N` where that
//! isn't 0. `texts PlayFault` prints the text of each fault of `play`, a line for each, in their order. And these are of files:
//!
//! - `save PATH` writes the text of the last line `text`, and what was added to it, to a file, and `remove PATH` removes it;
//! - `load PATH` prints how many bytes are read of a file, which are that text from then on, or `unreadable`.
//!
//! `#` begins a comment, and an empty line is nothing. Any other line prints `no such row`.
#![tactic(auto)]

mod answers;
mod asked;
mod examples;
mod faults;
mod files;
mod folder;
mod shown;
mod streams;

use crate::answers::answer;
use marlowe_commands::STACK;
use rows_given::Given;
use rows_text::{Report, put_answer};
use std::process::ExitCode;
use std::rt::{Env, Files};
use std::sync::Wait;
use std::thread::{Builder, Threads};
use std::{env, fs, io, thread};

fn main(rt: HostRuntime) -> ExitCode {
    let status = thread::scope(thread::scope_env(), &rt, |scope| {
        match Builder::new()
            .stack_size(STACK)
            .spawn_scoped(scope, || status(&rt))
        {
            Ok(handle) => handle.join(&rt),
            Err(_) => 2,
        }
    });
    ExitCode::from(status)
}

// Prints the answers, in a thread whose stack holds the deepest texts, as in the program.
fn status<R: Env + Files + Print + AllocGlobal + Threads + Wait + Sync>(rt: &R) -> u8 {
    match print_files(rt) {
        Ok(true) => 0,
        Ok(false) => 1,
        Err(_) => 2,
    }
}

// Whether the rows of each file that the command line names are answered as it says.
fn print_files<R: Env + Files + Print + AllocGlobal + Threads + Wait + Sync>(
    rt: &R,
) -> io::Result<bool> {
    let words: Vec<String> = env::args(rt)?.collect(rt.alloc())?;
    let mut as_written = true;
    for path in words.iter().skip(1) {
        let text = fs::read_to_string(rt, path.as_str())?;
        let report = report_of(rt, path.as_str(), text.as_str())?;
        rt.write_all(report.text())?;
        as_written = as_written && report.is_as_written();
    }
    Ok(as_written)
}

fn report_of<'t, R: Files + AllocGlobal + Threads + Wait + Sync>(
    rt: &R,
    path: &'t str,
    text: &'t str,
) -> io::Result<Report<'t>> {
    let mut given = Given::new(rt.alloc());
    let mut report = Report::new(rt.alloc(), path, text);
    for line in text.lines() {
        if report.take(rt.alloc(), line)? {
            put_answer(&mut report, answer(rt, &mut given, line))?;
        }
    }
    report.finish(rt.alloc())?;
    Ok(report)
}
