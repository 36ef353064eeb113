//! All that is told of a play.
ghost use Rattle.std.specs.Prelude.{◌≡◌, length, map, IfOk, string_bytes};
ghost use Rattle.marlowe_play.specs.Notes as notes;
ghost use Rattle.marlowe_play.specs.Notes.{lines_by, holdings_by};

use crate::notes::told_of;
use parties::LeftOut;
use play_endings::{
    Entry, Holding, Memory, NamedThread, Scenario, Spelling, holding_lines, holding_objects,
    noted_lines, noted_objects,
};
use play_setup::ThreadLine;
use std::alloc::Global;

fn lines_by(
    alloc: Global,
    spelling: Spelling,
    notes: &[String],
    entries: &[Entry],
    threads: &[ThreadLine<'_>],
) -> Result<Vec<u8>, Memory>
    requires { length notes.now ≡ length entries.now }
    ensures { IfOk result (λ text. text.items ≡ lines_by spelling (map (λ s. string_bytes s) notes.now) entries.now threads.now) }
{
    match spelling {
        Spelling::Lines => noted_lines(alloc, notes, entries, threads),
        Spelling::Objects => noted_objects(alloc, notes, entries.len(), threads),
    }
}

fn holdings_by(
    alloc: Global,
    spelling: Spelling,
    threads: &[NamedThread],
    holdings: &[Holding],
) -> Result<String, Memory>
    ensures { IfOk result (λ text. string_bytes text ≡ holdings_by spelling threads.now holdings.now) }
{
    match spelling {
        Spelling::Lines => holding_lines(alloc, threads, holdings),
        Spelling::Objects => holding_objects(alloc, threads, holdings),
    }
}

/// All that is told of a scenario's play, in lines for people or as objects, one on a line of its own: each entry and what is told behind it,
/// the threads and the number of entries, how each intent of each plan ended, and who holds what at the end. `left` has what the party of each
/// plan left out, in the order of the plans. Answers `Memory` only where a growth was refused.
pub(crate) fn all_told(
    alloc: Global,
    spelling: Spelling,
    scenario: &Scenario,
    left: &[Vec<LeftOut>],
    entries: &[Entry],
    threads: &[ThreadLine<'_>],
    holdings: &[Holding],
) -> Result<Vec<u8>, Memory>
    ensures { IfOk result (λ text. text.items
        ≡ notes.all_told spelling scenario.now (map (λ l. l.items) left.now) entries.now threads.now holdings.now) }
{
    let ending = holdings_by(alloc, spelling, scenario.threads.as_slice(), holdings)?;
    let told = told_of(alloc, spelling, scenario, left, entries)?;
    let mut text = lines_by(alloc, spelling, &told.notes, entries, threads)?;
    text.extend_from_slice(told.lines.as_bytes())?;
    text.extend_from_slice(ending.as_bytes())?;
    Ok(text)
}
