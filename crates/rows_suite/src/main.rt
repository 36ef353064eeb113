//! `rows_suite`: the suite that any Marlowe engine can be held against (docs/conformance.md), as data. It asks the cases of the files that its
//! arguments name, those of a file in one stream, and prints a line for each file: how many of its cases are answered as it says. Above that line
//! stands each case that isn't: its number in the file, and the answer.
#![tactic(auto)]

mod case;
mod held;
mod pieces;

use crate::held::held;
use std::process::ExitCode;
use std::rt::{Env, Files};
use std::{env, fs, io};

fn main(rt: HostRuntime) -> ExitCode {
    match hold_files(&rt) {
        Ok(true) => ExitCode::SUCCESS,
        Ok(false) => ExitCode::from(1),
        Err(_) => ExitCode::from(2),
    }
}

// Whether all cases of the files that the command line names are answered as they say.
fn hold_files<R: Env + Files + Print + AllocGlobal>(rt: &R) -> io::Result<bool> {
    let words: Vec<String> = env::args(rt)?.collect(rt.alloc())?;
    let mut all_agree = true;
    for path in words.iter().skip(1) {
        let cases = fs::read_to_string(rt, path.as_str())?;
        let (told, agree) = held(rt.alloc(), path.as_str(), cases.as_str())?;
        rt.write_all(told.as_bytes())?;
        all_agree = all_agree && agree;
    }
    Ok(all_agree)
}
