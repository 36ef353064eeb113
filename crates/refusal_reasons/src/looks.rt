//! Texts that are read, or told of: each is read as JSON once.
ghost use Rattle.std.specs.Prelude.{◌≡◌, Ok, IfOk};
ghost use Rattle.contract.specs.Collections.Answers.{Aside};
ghost use Rattle.serde_json.specs.Data.{Data};
ghost use Rattle.json_tree.specs.View.{view};
ghost use Rattle.explanations.specs.JsonReadNames.Parts.{Reading};
ghost use Rattle.explanations.specs.JsonReadNames.ReadsText.{json_within, of_text, of_text_within};
ghost use Rattle.explanations.specs.JsonForms.declared.sort.Sort.{Sort};
ghost use Rattle.refusal_reasons.specs.Reasons.{TellsFlat, TellsText};
ghost use Rattle.refusal_reasons.specs.LooksSupport.{IsLook};

use crate::source::Source;
use crate::texts::FLAT;
use contract::Memory;
use explanations::{How, JsonFault, Sort, Spelling, explained_fault, explained_value, json_within};
use json::Scratch;
use json_tree::Json;
use std::alloc::{AllocError, Global};

/// What a text is read as, or why it isn't read, with what tells so unless memory is refused for that.
#[derive(Drop)]
pub(crate) enum Look<X> {
    Read(X),
    Told(JsonFault, Result<Vec<u8>, Memory>),
}

/// What reads a text.
pub(crate) trait TextReader<X> {
    /// What a JSON value stands for.
    ghost reading: { Self → Data → Reading X };

    /// The sort of a text, by which it is told of.
    ghost sort: { Self → Sort };

    fn sort(&self) -> Sort
        ensures { result ≡ sort self.now };

    fn read(&self, alloc: Global, json: &Json<'_>) -> Result<X, JsonFault>
        ensures { Aside JsonFault.Memory result (reading self.now (view json.now)) };
}

/// What the text of a source is read as, or why it isn't read, whose lists and objects may nest as deep as `how` says.
pub(crate) fn look_at<X: Drop, R: TextReader<X>>(
    alloc: Global,
    source: Source<'_>,
    reader: &R,
    how: How,
) -> Result<Look<X>, Memory>
    ensures { IfOk result (IsLook (of_text_within how.depth (R.reading reader.now) source.entry.text.now)
        (TellsText how source.entry.path.now source.entry.text.now (R.sort reader.now))) }
{
    let mut scratch = Scratch::new(alloc);
    match json_within(alloc, source.text, &mut scratch, how.depth) {
        Ok(json) => value_look(alloc, source, reader, &json, how),
        Err(JsonFault::Memory) => Err(AllocError),
        Err(fault) => {
            let written = explained_fault(alloc, source.path, source.text, fault, how);
            Ok(Look::Told(fault, written))
        }
    }
}

/// The same of a text that nests no deeper than a state or a transaction may.
pub(crate) fn flat_look<X: Drop, R: TextReader<X>>(
    alloc: Global,
    source: Source<'_>,
    reader: &R,
    spelling: Spelling,
) -> Result<Look<X>, Memory>
    ensures { IfOk result (IsLook (of_text (R.reading reader.now) source.entry.text.now)
        (TellsFlat spelling source.entry (R.sort reader.now))) }
{
    let how = How {
        depth: FLAT,
        spelling,
    };
    look_at(alloc, source, reader, how)
}

// What its JSON value is read as.
#[tactic(auto, using(crate::proofs::LookLemmas::by_value))]
fn value_look<X: Drop, R: TextReader<X>>(
    alloc: Global,
    source: Source<'_>,
    reader: &R,
    json: &Json<'_>,
    how: How,
) -> Result<Look<X>, Memory>
    requires { json_within how.depth source.text.now ≡ Ok (view json.now) }
    ensures { IfOk result (IsLook (of_text_within how.depth (R.reading reader.now) source.entry.text.now)
        (TellsText how source.entry.path.now source.entry.text.now (R.sort reader.now))) }
{
    match reader.read(alloc, json) {
        Ok(item) => Ok(Look::Read(item)),
        Err(JsonFault::Memory) => Err(AllocError),
        Err(fault) => {
            let written = value_told(alloc, source, reader, json, how);
            Ok(Look::Told(fault, written))
        }
    }
}

// What is told of a JSON value, by the sort of the text.
fn value_told<X: Drop, R: TextReader<X>>(
    alloc: Global,
    source: Source<'_>,
    reader: &R,
    json: &Json<'_>,
    how: How,
) -> Result<Vec<u8>, Memory>
    requires { json_within how.depth source.text.now ≡ Ok (view json.now) }
    ensures { IfOk result (λ written. TellsText how source.entry.path.now source.entry.text.now (R.sort reader.now) written.items) }
{
    let sort = reader.sort();
    explained_value(alloc, source.path, source.text, sort, json, how)
}
