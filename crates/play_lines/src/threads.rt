//! The lines of threads.
ghost use Rattle.std.specs.Prelude.{◌≡◌, ◌++◌, OnOk, string_bytes};
ghost use Rattle.play_lines.specs.PlayLines.{thread_line, thread_lines};

use builder_spec::{Memory, Text};
use std::fmt::Write;
use std::marker::Model;

/// What is told of a thread: its name, how many steps of it were accepted, and whether the last of them left Close.
#[derive(Drop)]
pub struct ThreadLine<'a> {
    pub name: &'a Text,
    pub steps: usize,
    pub closed: bool,
}

impl<'a> Model for ThreadLine<'a> {
    ghost use Rattle.std.specs.Coded.{codes};
    ghost use Rattle.play_lines.specs.PlayLines.{ThreadLine};

    ghost Value = { ThreadLine };

    ghost coded = { Prim.hlevel codes };

    ghost view = { λ t. record { name = t.name.now; steps = t.steps; closed = t.closed } };
}

/// Puts a line for each thread at the end of a text. Answers `Memory` only where a growth was refused.
pub fn print_threads(out: &mut String, threads: &[ThreadLine<'_>]) -> Result<(), Memory>
    ensures { OnOk result (string_bytes out.new ≡ string_bytes out.old ++ thread_lines threads.now) }
{
    for thread in threads {
        print_thread(out, thread)?;
    }
    Ok(())
}

fn print_thread(out: &mut String, thread: &ThreadLine<'_>) -> Result<(), Memory>
    ensures { OnOk result (string_bytes out.new ≡ string_bytes out.old ++ thread_line thread.now) }
{
    let name = thread.name.as_str();
    let steps = thread.steps;
    let end = if thread.closed { "closed" } else { "open" };
    write!(out, "thread {name} steps {steps} {end}\n")
}
