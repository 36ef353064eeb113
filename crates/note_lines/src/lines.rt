//! Lines for people.
ghost use Rattle.std.specs.Prelude.{◌≡◌, ◌++◌, flat_map, IfOk, OnOk, string_bytes};
ghost use Rattle.serde_json.specs.Written.{compact_text};
ghost use Rattle.contract.specs.Tree.{contract_tree};
ghost use Rattle.places.specs.Texts.{place_text};
ghost use Rattle.places.specs.Places.{keys_of};
ghost use Rattle.note_lines.specs.NoteLines.{source_json, note_line, once_line, notes_lines};

use analysis_spec::PathStep;
use contract::{Contract, Memory, Party};
use contract_notes::{Note, Remark, Source};
use json_write_contracts::term_text;
use places::{keys_of, put_place};
use std::alloc::Global;

/// A line for each note on a name or a choice of a contract, and one for each party that is named once.
pub fn put_note_lines(
    alloc: Global,
    out: &mut Vec<u8>,
    contract: &Contract,
    notes: &[Note],
    once: &[Party],
) -> Result<(), Memory>
    ensures { OnOk result (out.new.items ≡ out.old.items ++ notes_lines (contract_tree contract.now) notes.now once.now) }
{
    put_each(alloc, out, contract, notes)?;
    put_once(alloc, out, once)
}

fn put_each(
    alloc: Global,
    out: &mut Vec<u8>,
    contract: &Contract,
    notes: &[Note],
) -> Result<(), Memory>
    ensures { OnOk result (out.new.items ≡ out.old.items ++ flat_map (note_line (contract_tree contract.now)) notes.now) }
{
    for note in notes {
        put_note(alloc, out, contract, note)?;
    }
    Ok(())
}

fn put_once(alloc: Global, out: &mut Vec<u8>, once: &[Party]) -> Result<(), Memory>
    ensures { OnOk result (out.new.items ≡ out.old.items ++ flat_map once_line once.now) }
{
    for party in once {
        put_party_line(alloc, out, party)?;
    }
    Ok(())
}

fn put_party_line(alloc: Global, out: &mut Vec<u8>, party: &Party) -> Result<(), Memory>
    ensures { OnOk result (out.new.items ≡ out.old.items ++ once_line party.now) }
{
    let party = term_text(alloc, party)?;
    let line = format!(in alloc; "note: {party} is named once\n")?;
    put_bytes(out, line.as_bytes())
}

fn put_note(
    alloc: Global,
    out: &mut Vec<u8>,
    contract: &Contract,
    note: &Note,
) -> Result<(), Memory>
    ensures { OnOk result (out.new.items ≡ out.old.items ++ note_line (contract_tree contract.now) note.now) }
{
    put_bytes(out, b"note: ")?;
    match &note.remark {
        Remark::Unbound(source) => put_remark(
            alloc,
            out,
            contract,
            source,
            b" is 0 at ",
            note.place.as_slice(),
            b", where nothing has set it\n",
        ),
        Remark::Unread(source) => put_remark(
            alloc,
            out,
            contract,
            source,
            b" of ",
            note.place.as_slice(),
            b" is read nowhere behind it\n",
        ),
    }
}

// A name or a choice, words, a place and words.
fn put_remark(
    alloc: Global,
    out: &mut Vec<u8>,
    contract: &Contract,
    source: &Source,
    before: &[u8],
    place: &[PathStep],
    behind: &[u8],
) -> Result<(), Memory>
    ensures { OnOk result (out.new.items ≡ out.old.items ++ (compact_text (source_json source.now) ++ (before.now
        ++ (place_text (keys_of place.now (contract_tree contract.now)) ++ behind.now)))) }
{
    let text = source_text(alloc, source)?;
    let keys = keys_of(alloc, contract, place)?;
    put_bytes(out, text.as_bytes())?;
    put_bytes(out, before)?;
    put_place(alloc, out, &keys)?;
    put_bytes(out, behind)
}

fn source_text(alloc: Global, source: &Source) -> Result<String, Memory>
    ensures { IfOk result (λ text. string_bytes text ≡ compact_text (source_json source.now)) }
{
    match source {
        Source::Name(name) => term_text(alloc, name),
        Source::Choice(id) => term_text(alloc, id),
    }
}

fn put_bytes(out: &mut Vec<u8>, bytes: &[u8]) -> Result<(), Memory>
    ensures { OnOk result (out.new.items ≡ out.old.items ++ bytes.now) }
{
    out.extend_from_slice(bytes)?;
    Ok(())
}
