//! The whole text.
ghost use Rattle.std.specs.Prelude.{◌≡◌, IfOk};
ghost use Rattle.play_lines.specs.PlayLines.{played_lines};

use crate::entries::print_entries;
use crate::threads::{ThreadLine, print_threads};
use builder_spec::{Entry, Memory};
use std::alloc::Global;
use std::fmt::Write;

/// The lines of a history and of threads, each with a line feed: one for each entry, for each thread, and for the number of
/// entries. Answers `Memory` only where a growth was refused.
#[tactic(auto, unfolding(crate::specs::PlayLines::played_lines))]
pub fn played_lines(
    alloc: Global,
    entries: &[Entry],
    threads: &[ThreadLine<'_>],
) -> Result<Vec<u8>, Memory>
    ensures { IfOk result (λ text. text.items ≡ played_lines entries.now threads.now) }
{
    let mut out = String::new(alloc);
    print_entries(alloc, &mut out, entries)?;
    print_threads(&mut out, threads)?;
    let count = entries.len();
    write!(out, "entries {count}\n")?;
    Ok(out.into_bytes())
}
