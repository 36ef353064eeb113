//! Notes on texts, behind what is printed.
ghost use Rattle.std.specs.Prelude.{◌≡◌, ◌⊎◌};
ghost use Rattle.std.specs.Str.{IsUtf8};
ghost use Rattle.marlowe_commands.specs.declared.face.Face.TheVariants as faces;
ghost use Rattle.marlowe_commands.specs.Streams.{AreNotes, streams_of, with_notes};

use crate::face::Face;
use crate::printed::Printed;
use crate::said::put_if;
use serve::{Numbers, ScenarioSort, Sort, Source, Sources};
use std::alloc::Global;
use unread_notes::notes_on;

// How deep lists and objects of a state or a transaction may nest.
const FLAT: usize = 127;

/// The notes on a contract whose lists and objects may nest so deep.
pub fn contract_notes(alloc: Global, contract: Source<'_>, depth: usize) -> Vec<u8>
    ensures { AreNotes result.items }
{
    notes_of(alloc, contract, Sort::Contract, depth)
}

/// The notes on a scenario whose lists and objects may nest so deep.
pub fn scenario_notes(alloc: Global, scenario: Source<'_>, depth: usize) -> Vec<u8>
    ensures { AreNotes result.items }
{
    notes_of(
        alloc,
        scenario,
        Sort::OfScenario(ScenarioSort::Scenario),
        depth,
    )
}

/// The notes on a state, whose numbers may be texts, if one is given.
#[tactic(auto, using(crate::proofs::NoteLemmas::none))]
pub fn state_notes(alloc: Global, state: Option<Source<'_>>, text_numbers: bool) -> Vec<u8>
    ensures { AreNotes result.items }
{
    match state {
        Some(state) => notes_of(alloc, state, state_sort(text_numbers), FLAT),
        None => Vec::new(alloc),
    }
}

fn state_sort(text_numbers: bool) -> Sort {
    if text_numbers {
        Sort::State(Numbers::OrTexts)
    } else {
        Sort::State(Numbers::Whole)
    }
}

/// The notes on a transaction.
pub fn transaction_notes(alloc: Global, transaction: Source<'_>) -> Vec<u8>
    ensures { AreNotes result.items }
{
    notes_of(alloc, transaction, Sort::Transaction, FLAT)
}

/// The notes on texts that are one transaction each: on lists and on lines of them there are none.
#[tactic(auto, using(crate::proofs::NoteLemmas::none))]
pub fn transactions_notes(alloc: Global, sources: Sources<'_>) -> Vec<u8>
    ensures { AreNotes result.items }
{
    let mut notes = Vec::new(alloc);
    for pair in sources.paths.iter().zip(sources.texts.iter()) {
        let transaction = Source {
            path: *pair.0,
            text: pair.1.as_slice(),
        };
        put(&mut notes, &transaction_notes(alloc, transaction));
    }
    notes
}

/// Puts notes behind others, or none for want of memory.
pub fn put(notes: &mut Vec<u8>, more: &Vec<u8>)
    requires notes { AreNotes notes.old.items }
    requires more { AreNotes more.now.items }
    ensures { AreNotes notes.new.items }
{
    put_if(notes, more.as_slice());
}

// The notes on a text; none for want of memory, nor of a text that isn't UTF-8.
#[tactic(auto, using(crate::proofs::NoteLemmas::none))]
fn notes_of(alloc: Global, source: Source<'_>, sort: Sort, depth: usize) -> Vec<u8>
    ensures { AreNotes result.items }
{
    match std::str::from_utf8(source.text) {
        Ok(_) => lines_of(alloc, source, sort, depth),
        Err(_) => Vec::new(alloc),
    }
}

// The same of a text in UTF-8.
#[tactic(auto, using(crate::proofs::NoteLemmas::none, crate::proofs::NoteLemmas::one))]
fn lines_of(alloc: Global, source: Source<'_>, sort: Sort, depth: usize) -> Vec<u8>
    requires { IsUtf8 source.text.now }
    ensures { AreNotes result.items }
{
    match notes_on(alloc, source.path, source.text, sort, depth) {
        Ok(lines) => lines,
        Err(_) => Vec::new(alloc),
    }
}

/// What is printed with notes behind it, where it is explained; without them for want of memory.
pub fn noted(face: Face, printed: Printed, notes: &Vec<u8>) -> Printed
    ensures { (face ≡ faces.Explained) × (streams_of result ≡ with_notes notes.now.items (streams_of printed))
        ⊎ (streams_of result ≡ streams_of printed) }
{
    match face {
        Face::Explained => with_notes(printed, notes.as_slice()),
        Face::Plain | Face::Json => printed,
    }
}

fn with_notes(printed: Printed, notes: &[u8]) -> Printed
    ensures { (streams_of result ≡ with_notes notes.now (streams_of printed)) ⊎ (streams_of result ≡ streams_of printed) }
{
    let Printed {
        output,
        mut errors,
        status,
        unread,
    } = printed;
    let _ = errors.extend_from_slice(notes);
    Printed {
        output,
        errors,
        status,
        unread,
    }
}
