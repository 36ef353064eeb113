//! `marlowe`: what a Marlowe contract pays, and to whom, from JSON files, by one transaction or many; what it takes next; what it can
//! warn of and pay in any run; what becomes of contracts that many parties step on one ledger; and a stream of such questions.
//!
//! What a command line prints, and its status, is told by `command` of `marlowe_commands`. Here are the words, the files and the
//! streams. Refusals are explained where standard error is a terminal. Where standard output can't be written, `unwritable` is on
//! standard error, and the status is 2. All runs in a thread whose stack holds texts of any depth that `--depth` allows; where the system has no
//! room for one, that is told as want of memory.
#![tactic(auto)]

ghost use Rattle.std.specs.Prelude.{◌≤◌};

mod files;
mod progress;

use crate::files::HostFiles;
use crate::progress::Progress;
use marlowe_cli::{WordsFault, words};
use marlowe_commands::{Command, Ended, Printed, STACK, command, serve_in_turn};
use marlowe_io::{ReaderSource, emit_output, output};
use marlowe_run::Readable;
use std::io::IsTerminal;
use std::process::ExitCode;
use std::rt::{Clock, Env, Files, Stderr};
use std::sync::Wait;
use std::thread;
use std::thread::{Builder, Threads};

fn main(rt: HostRuntime) -> ExitCode {
    let status = thread::scope(thread::scope_env(), &rt, |scope| {
        match Builder::new()
            .stack_size(STACK)
            .spawn_scoped(scope, || status(&rt, &rt.stderr()))
        {
            Ok(handle) => handle.join(&rt),
            Err(_) => out_of_memory(&rt.stderr()),
        }
    });
    ExitCode::from(status)
}

// Has the command line answered, and gives the status.
fn status<R: AllocGlobal + Clock + Env + Eprint + Files + Input + Print + Sync + Threads + Wait>(
    rt: &R,
    errors: &Stderr,
) -> u8 {
    match words(rt) {
        Ok(words) => {
            let for_people = errors.is_terminal();
            let progress = Progress::new(rt, for_people);
            let files = HostFiles { rt };
            let told = command(rt, &files, &progress, words.as_slice(), for_people);
            progress.clear();
            match told {
                Ok(Command::Printed(printed)) => tell(rt, errors, printed),
                Ok(Command::Serve(readable)) => answer(rt, errors, readable),
                Err(_) => out_of_memory(errors),
            }
        }
        Err(WordsFault::Memory) => out_of_memory(errors),
        Err(WordsFault::NoText) => {
            let _ = errors.write_all(b"error: a word of the command line is no text in UTF-8\n");
            2
        }
    }
}

// Writes what is printed, a refusal behind outcomes, and gives its status.
fn tell(output: &impl Print, errors: &impl Print, printed: Printed) -> u8 {
    match emit_output(output, printed.output.as_slice()) {
        Ok(()) => {
            let _ = emit_output(errors, printed.errors.as_slice());
            printed.status
        }
        Err(_) => unwritable(errors),
    }
}

// Answers the requests that come on standard input, until they end, and gives the status.
fn answer<R: AllocGlobal + Input + Print + Sync + Threads + Wait>(
    rt: &R,
    errors: &impl Print,
    readable: Readable,
) -> u8
    requires { readable.depth ≤ 4000 }
{
    let mut requests = ReaderSource::new(rt.reader());
    match serve_in_turn(rt, readable, &mut requests, &mut output(rt)) {
        Ended::Answered => 0,
        Ended::Unreadable => {
            let _ = errors.write_all(b"unreadable -\n");
            2
        }
        Ended::Unwritable => unwritable(errors),
        Ended::Memory => out_of_memory(errors),
    }
}

// Tells that standard output can't be written, and gives the status.
fn unwritable(errors: &impl Print) -> u8 {
    let _ = errors.write_all(b"unwritable\n");
    2
}

// Tells that memory was refused, for which it takes none, and gives the status.
fn out_of_memory(errors: &impl Print) -> u8 {
    let _ = errors.write_all(b"refused Memory\n");
    1
}
