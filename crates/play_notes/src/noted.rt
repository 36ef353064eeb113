//! Entries with their notes.
ghost use Rattle.std.specs.Prelude.{◌≡◌, ◌++◌, length, map, IfOk, OnOk, string_bytes};
ghost use Rattle.play_notes.specs.Notes as told;
ghost use Rattle.play_notes.specs.Notes.{noted_entries};

use builder_spec::Entry;
use contract::Memory;
use play_lines::{ThreadLine, print_entry, print_threads};
use std::alloc::Global;
use std::fmt::Write;

fn put_entries(
    alloc: Global,
    out: &mut String,
    notes: &[String],
    entries: &[Entry],
) -> Result<(), Memory>
    requires { length notes.now ≡ length entries.now }
    ensures { OnOk result (string_bytes out.new ≡ string_bytes out.old
        ++ noted_entries 0 (map (λ s. string_bytes s) notes.now) entries.now) }
{
    for (number, entry) in entries.iter().enumerate() {
        print_entry(alloc, out, number, entry)?;
        out.push_str(notes[number].as_str())?;
    }
    Ok(())
}

/// The lines of a history and of threads, as a play prints them, and behind the line of each entry what is told there. Answers `Memory`
/// only where a growth was refused.
#[tactic(auto, unfolding(crate::specs::Notes::noted_lines))]
pub fn noted_lines(
    alloc: Global,
    notes: &[String],
    entries: &[Entry],
    threads: &[ThreadLine<'_>],
) -> Result<Vec<u8>, Memory>
    requires { length notes.now ≡ length entries.now }
    ensures { IfOk result (λ text. text.items ≡ told.noted_lines (map (λ s. string_bytes s) notes.now) entries.now threads.now) }
{
    let mut out = String::new(alloc);
    put_entries(alloc, &mut out, notes, entries)?;
    print_threads(&mut out, threads)?;
    let count = entries.len();
    write!(out, "entries {count}\n")?;
    Ok(out.into_bytes())
}
