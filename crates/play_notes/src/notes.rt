//! Notes of entries.
ghost use Rattle.std.specs.Prelude.{◌≡◌, ◌++◌, map, IfOk, OnOk, string_bytes};
ghost use Rattle.play_notes.specs.Notes as told;
ghost use Rattle.play_notes.specs.Notes.{reply_notes};

use crate::replies::put_reply;
use builder_spec::{Entry, Reply};
use contract::Memory;
use std::alloc::Global;

fn note_of(alloc: Global, reply: &Reply) -> Result<String, Memory>
    ensures { IfOk result (λ text. string_bytes text ≡ reply_notes reply.now) }
{
    let mut text = String::new(alloc);
    put_reply(alloc, &mut text, reply)?;
    Ok(text)
}

/// What is told behind each of these entries, in order: why its reply refuses something, a line each; else nothing. Answers `Memory`
/// only where a growth was refused.
pub fn notes_of(alloc: Global, entries: &[Entry]) -> Result<Vec<String>, Memory>
    ensures { IfOk result (λ notes. map (λ s. string_bytes s) notes.items ≡ told.notes_of entries.now) }
{
    let mut notes = Vec::new(alloc);
    for entry in entries {
        let note = note_of(alloc, &entry.reply)?;
        notes.push(note)?;
    }
    Ok(notes)
}

fn put_text(out: &mut String, text: &str) -> Result<(), Memory>
    ensures { OnOk result (string_bytes out.new ≡ string_bytes out.old ++ text.now) }
{
    out.push_str(text)
}

/// Puts a text behind what is told behind the entry at a place, if there is one. Answers `Memory` only where a growth was refused.
pub fn put_behind(notes: &mut [String], place: usize, text: &str) -> Result<(), Memory>
    ensures { OnOk result (map (λ s. string_bytes s) notes.new ≡ told.put_behind place text.now (map (λ s. string_bytes s) notes.old)) }
{
    if place >= notes.len() {
        return Ok(());
    }
    put_text(&mut notes[place], text)
}
