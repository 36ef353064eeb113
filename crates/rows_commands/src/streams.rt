//! Streams of requests.
ghost use Rattle.std.specs.Prelude.{◌≤◌};

use definitions::Definitions;
use marlowe_commands::{Printed, answer_in_turn};
use marlowe_run::Readable;
use rows_given::Given;
use rows_text::{RowFault, without_end};
use std::sync::Wait;
use std::thread::Threads;

/// The answers to the requests that are given as the file `-`, a line each.
pub fn streamed<R: AllocGlobal + Threads + Wait + Sync>(
    rt: &R,
    given: &Given,
    readable: Readable,
) -> Result<Printed, RowFault>
    requires { readable.depth ≤ 4000 }
{
    let alloc = rt.alloc();
    let mut definitions = Definitions::new(alloc);
    let mut output = Vec::new(alloc);
    let mut number = 0u64;
    let requests = given.file("-").unwrap_or(b"");
    if !requests.is_empty() {
        for line in without_end(requests).split(|byte| *byte == b'\n') {
            number = number.saturating_add(1);
            let text = answer_in_turn(rt, readable, &mut definitions, number, line)?;
            output.extend_from_slice(text.as_slice())?;
        }
    }
    Ok(Printed {
        output,
        errors: Vec::new(alloc),
        status: 0,
        unread: false,
    })
}
