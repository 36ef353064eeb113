//! JSON for tools.
ghost use Rattle.std.specs.Prelude.{◌≡◌, map, OnOk};
ghost use Rattle.serde_json.specs.Data.{array};
ghost use Rattle.serde_json.specs.View.{items_of};
ghost use Rattle.contract.specs.Tree.{contract_tree};
ghost use Rattle.json_write_contracts.specs.Tokens.{Puts};
ghost use Rattle.json_write_contracts.specs.WrittenNames.{party_json};
ghost use Rattle.note_lines.specs.NoteLines.{source_json, remark_word, source_of, note_json, notes_json};

use contract::{Contract, Memory, Party};
use contract_notes::{Note, Remark, Source};
use json::Writer;
use json_write_contracts::{put_choice_id, put_party, put_text, word};
use places::{keys_of, put_place_json};
use std::alloc::Global;

/// The parties that are named once, and the notes on names and choices of a contract, as an object.
pub fn put_notes_json(
    alloc: Global,
    out: &mut Writer,
    contract: &Contract,
    notes: &[Note],
    once: &[Party],
) -> Result<(), Memory>
    ensures { OnOk result (Puts out.old out.new (notes_json (contract_tree contract.now) notes.now once.now)) }
{
    out.begin_object()?;
    out.key("named_once")?;
    put_once(out, once)?;
    out.key("numbers")?;
    put_each(alloc, out, contract, notes)?;
    out.end_object()?;
    Ok(())
}

fn put_once(out: &mut Writer, once: &[Party]) -> Result<(), Memory>
    ensures { OnOk result (Puts out.old out.new (array (items_of (map party_json once.now)))) }
{
    out.begin_array()?;
    for party in once {
        put_party(out, party)?;
    }
    out.end_array()?;
    Ok(())
}

fn put_each(
    alloc: Global,
    out: &mut Writer,
    contract: &Contract,
    notes: &[Note],
) -> Result<(), Memory>
    ensures { OnOk result (Puts out.old out.new (array (items_of (map (note_json (contract_tree contract.now)) notes.now)))) }
{
    out.begin_array()?;
    for note in notes {
        put_note(alloc, out, contract, note)?;
    }
    out.end_array()?;
    Ok(())
}

fn put_note(alloc: Global, out: &mut Writer, contract: &Contract, note: &Note) -> Result<(), Memory>
    ensures { OnOk result (Puts out.old out.new (note_json (contract_tree contract.now) note.now)) }
{
    let keys = keys_of(alloc, contract, note.place.as_slice())?;
    out.begin_object()?;
    out.key("kind")?;
    word(out, remark_word(&note.remark))?;
    out.key("place")?;
    put_place_json(out, &keys)?;
    out.key("source")?;
    put_source(out, source_of(&note.remark))?;
    out.end_object()?;
    Ok(())
}

fn remark_word(remark: &Remark) -> &'static str
    ensures { result.now ≡ remark_word remark.now }
{
    match remark {
        Remark::Unbound(_) => "unbound",
        Remark::Unread(_) => "unread",
    }
}

fn source_of(remark: &Remark) -> &Source
    ensures { result.now ≡ source_of remark.now }
{
    match remark {
        Remark::Unbound(source) => source,
        Remark::Unread(source) => source,
    }
}

fn put_source(out: &mut Writer, source: &Source) -> Result<(), Memory>
    ensures { OnOk result (Puts out.old out.new (source_json source.now)) }
{
    match source {
        Source::Name(name) => put_text(out, name),
        Source::Choice(id) => put_choice_id(out, id),
    }
}
