//! What is printed, as the lines of a row.
use collections::Memory;
use marlowe_commands::Printed;
use rows_text::{put_line, put_lines, without_end};
use std::alloc::Global;

/// Which lines of standard output a row prints.
#[derive(Clone, Copy)]
pub enum Part {
    All,
    /// The last so many, or all where there are fewer.
    Last(usize),
    /// Those of an analysis that tell of alarms.
    Alarms,
}

/// The lines of standard output, each of standard error behind `stderr`, and the status where it isn't 0: all without the last line feed.
pub fn shown(alloc: Global, printed: &Printed, part: Part) -> Result<Vec<u8>, Memory> {
    let mut lines = Vec::new(alloc);
    put_output(&mut lines, printed.output.as_slice(), part)?;
    if !printed.errors.is_empty() {
        put_lines(&mut lines, b"stderr", printed.errors.as_slice())?;
    }
    put_status(alloc, &mut lines, printed.status)?;
    lines.pop();
    Ok(lines)
}

fn put_status(alloc: Global, lines: &mut Vec<u8>, status: u8) -> Result<(), Memory> {
    if status == 0 {
        return Ok(());
    }
    let status = format!(in alloc; "status {status}")?;
    put_line(lines, status.as_bytes())
}

fn put_output(lines: &mut Vec<u8>, output: &[u8], part: Part) -> Result<(), Memory> {
    if output.is_empty() {
        return Ok(());
    }
    let left_out = match part {
        Part::Last(most) => count_of(output).saturating_sub(most),
        Part::All | Part::Alarms => 0,
    };
    let mut place = 0usize;
    let mut is_of_bound = false;
    for line in without_end(output).split(|byte| *byte == b'\n') {
        is_of_bound = is_left_out(part, line, is_of_bound);
        if place >= left_out && !is_of_bound {
            put_line(lines, line)?;
        }
        place = place.saturating_add(1);
    }
    Ok(())
}

// How many lines a text has.
fn count_of(text: &[u8]) -> usize {
    let mut count = 1usize;
    for byte in without_end(text) {
        if *byte == b'\n' {
            count = count.saturating_add(1);
        }
    }
    count
}

// Whether a line of an analysis tells what a party is paid, which begins with the party, or a run to such a bound, which stands behind
// it, and alarms alone are wanted.
fn is_left_out(part: Part, line: &[u8], is_behind_bound: bool) -> bool {
    match part {
        Part::Alarms => {
            line.starts_with(b"{\"address\"")
                || line.starts_with(b"{\"role_token\"")
                || is_behind_bound && line.starts_with(b"{\"tx_inputs\"")
        }
        _ => false,
    }
}
