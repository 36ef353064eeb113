//! From the name and the text of a file to what is told of it.
ghost use Rattle.std.specs.Prelude.{◌≡◌, ◌≢◌, Ok, Err, IfOk, map};
ghost use Rattle.std.specs.Str.{IsUtf8};
ghost use Rattle.json.specs.Reads.{token_of};
ghost use Rattle.json_tree.specs.View.{view};
ghost use Rattle.json_read_names.specs.ReadsText.{json_within};
ghost use Rattle.json_read_scenarios.specs.ReadsScenario.{scenario};
ghost use Rattle.json_stops.specs.Stops.{fault_as, fault_of};
ghost use Rattle.explanations.specs.Explained.{Explains, ExplainsScenario, FaultIsTold, IsFirst, IsToldAt, IsToldBy, IsToldScenario, names_there, spelled};
ghost use Rattle.told_parts.specs.Told.{seen};
ghost use Rattle.explanations.specs.ExplainedSupport.{Begins, place_of};

use crate::how::How;
use crate::indexes::{indexes_of, keys_in};
use crate::standing::sure_offset;
use crate::text_lines::{no_json_told, too_long_told};
use json::{Scratch, Token};
use json_forms::{ScenarioSort, Sort};
use json_members::Spelling;
use json_read_names::{JsonFault, json_within};
use json_stops::{Step, Stop, first_stop};
use json_tree::Json;
use names::collections::Memory;
use part_tokens::beginning_of;
use scenario_stops::names_in;
use std::alloc::{AllocError, Global};
use text_spots::{Spot, spot_at};
use told_parts::{Told, beside, told_lines, told_members};

/// Why the text of a file isn't read as one of a sort: a contract, a transaction, a state. It is written as `how` says, in lines or
/// members. `file` is the name that is told. Where the text is read there are no bytes. `Memory` where memory was refused.
///
/// Of a text that is JSON the first part is told at which reading stops; of one that isn't, where it breaks the form of JSON or nests
/// deeper than `how` says; of one of more than 1,048,576 bytes, how long it is.
pub fn explained(
    alloc: Global,
    file: &str,
    text: &[u8],
    sort: Sort,
    how: How,
) -> Result<Vec<u8>, Memory>
    ensures { IfOk result (λ written. Explains how file.now text.now sort written.items) }
{
    let mut scratch = Scratch::new(alloc);
    match json_within(alloc, text, &mut scratch, how.depth) {
        Ok(json) => told_json(alloc, file, text, sort, &json, how),
        Err(fault) => told_fault(alloc, file, text, fault, how),
    }
}

/// The same of a text that has been read as JSON, by its value: so it isn't read again.
pub fn explained_value(
    alloc: Global,
    file: &str,
    text: &[u8],
    sort: Sort,
    json: &Json<'_>,
    how: How,
) -> Result<Vec<u8>, Memory>
    requires { json_within how.depth text.now ≡ Ok (view json.now) }
    ensures { IfOk result (λ written. Explains how file.now text.now sort written.items) }
{
    told_json(alloc, file, text, sort, json, how)
}

/// The same of a text that has been refused as JSON, by its fault: it is told alike of each sort.
pub fn explained_fault(
    alloc: Global,
    file: &str,
    text: &[u8],
    fault: JsonFault,
    how: How,
) -> Result<Vec<u8>, Memory>
    requires { json_within how.depth text.now ≡ Err fault }
    ensures { IfOk result (λ written. (sort : Sort) → Explains how file.now text.now sort written.items) }
{
    told_fault(alloc, file, text, fault, how)
}

// Of a text that isn't read as JSON.
fn told_fault(
    alloc: Global,
    file: &str,
    text: &[u8],
    fault: JsonFault,
    how: How,
) -> Result<Vec<u8>, Memory>
    ensures { IfOk result (λ written. (fault ≢ JsonFault.Memory) × FaultIsTold how file.now text.now written.items fault) }
{
    match fault {
        JsonFault::NotJson => no_json_told(alloc, file, text, how),
        JsonFault::TooLong => too_long_told(alloc, file, text.len(), how.spelling),
        JsonFault::Memory => Err(AllocError),
        JsonFault::NoForm
        | JsonFault::NotWhole
        | JsonFault::OutOfRange
        | JsonFault::BadHex
        | JsonFault::Merkleized
        | JsonFault::BadState => Ok(Vec::new(alloc)),
    }
}

// Of a text that is.
fn told_json(
    alloc: Global,
    file: &str,
    text: &[u8],
    sort: Sort,
    json: &Json<'_>,
    how: How,
) -> Result<Vec<u8>, Memory>
    requires { IsUtf8 text.now }
    ensures { IfOk result (λ written.
        IsToldBy how file.now text.now sort (view json.now) written.items (fault_as sort (view json.now))) }
{
    let found = first_stop(alloc, sort, json)?;
    match found {
        Some((stop, part)) => told_stop(alloc, file, text, json, &stop, part, &[], how),
        None => Ok(Vec::new(alloc)),
    }
}

/// The same of a scenario. Of a name that none has the names are told that there are.
pub fn explained_scenario(
    alloc: Global,
    file: &str,
    text: &[u8],
    how: How,
) -> Result<Vec<u8>, Memory>
    ensures { IfOk result (λ written. ExplainsScenario how file.now text.now written.items) }
{
    let mut scratch = Scratch::new(alloc);
    match json_within(alloc, text, &mut scratch, how.depth) {
        Ok(json) => told_scenario(alloc, file, text, &json, how),
        Err(fault) => told_fault(alloc, file, text, fault, how),
    }
}

fn told_scenario(
    alloc: Global,
    file: &str,
    text: &[u8],
    json: &Json<'_>,
    how: How,
) -> Result<Vec<u8>, Memory>
    requires { IsUtf8 text.now }
    ensures { IfOk result (λ written.
        IsToldScenario how file.now text.now (view json.now) written.items (fault_of (scenario (view json.now)))) }
{
    let found = scenario_stops::first_stop(alloc, json)?;
    match found {
        Some((stop, part)) => {
            let names = names_there(alloc, json, stop.sort)?;
            told_stop(alloc, file, text, json, &stop, part, &names, how)
        }
        None => Ok(Vec::new(alloc)),
    }
}

fn names_there<'j>(alloc: Global, json: &'j Json<'_>, sort: Sort) -> Result<Vec<&'j str>, Memory>
    ensures { IfOk result (λ names. map (λ name. name.now) names.items ≡ names_there (view json.now) sort) }
{
    match sort {
        Sort::OfScenario(ScenarioSort::NameOf(kind)) => names_in(alloc, kind, json),
        _ => Ok(Vec::new(alloc)),
    }
}

// What is written of a stop.
fn told_stop<'x>(
    alloc: Global,
    file: &str,
    text: &[u8],
    json: &Json<'_>,
    stop: &Stop,
    part: &Json<'_>,
    names: &'x [&'x str],
    how: How,
) -> Result<Vec<u8>, Memory>
    requires { IsUtf8 text.now }
    ensures { IfOk result (λ written.
        IsToldAt how file.now text.now (view json.now) (place_of stop.now part.now) (map (λ name. name.now) names.now) written.items) }
{
    let indexes = indexes_of(alloc, json, &stop.path)?;
    let keys = keys_in(alloc, part)?;
    let mut scratch = Scratch::new(alloc);
    let found = begins(alloc, text, &mut scratch, &indexes, how.depth)?;
    let first = first_spot(alloc, text, json, &stop.path, stop.sort, how.depth)?;
    let told = Told {
        path: &stop.path,
        spot: found.0,
        sort: stop.sort,
        fault: stop.fault,
        token: found.1,
        keys: &keys,
        first,
        names,
    };
    spelled(alloc, file, &told, how.spelling)
}

// What is told of a part, as it is written.
fn spelled(
    alloc: Global,
    file: &str,
    told: &Told<'_, '_>,
    spelling: Spelling,
) -> Result<Vec<u8>, Memory>
    ensures { IfOk result (λ written. written.items ≡ spelled spelling file.now (seen told.now)) }
{
    match spelling {
        Spelling::Lines => told_lines(alloc, file, told),
        Spelling::Members => told_members(alloc, file, told),
    }
}

// Where the first entry with its key begins, of one that is given again at the end of a path.
fn first_spot(
    alloc: Global,
    text: &[u8],
    json: &Json<'_>,
    path: &[Step],
    sort: Sort,
    depth: usize,
) -> Result<Option<Spot>, Memory>
    requires { IsUtf8 text.now }
    ensures { IfOk result (λ first. IsFirst depth text.now json.now path.now sort first) }
{
    match sort {
        Sort::Repeated(index) => spot_beside(alloc, text, json, path, index, depth),
        _ => Ok(None),
    }
}

#[tactic(auto, using(crate::proofs::ExplainLemmas::first_told))]
fn spot_beside(
    alloc: Global,
    text: &[u8],
    json: &Json<'_>,
    path: &[Step],
    index: usize,
    depth: usize,
) -> Result<Option<Spot>, Memory>
    requires { IsUtf8 text.now }
    ensures { IfOk result (λ first. IsFirst depth text.now json.now path.now (Sort.Repeated index) first) }
{
    let other = beside(alloc, path, index)?;
    let indexes = indexes_of(alloc, json, other.as_slice())?;
    let mut scratch = Scratch::new(alloc);
    let found = begins(alloc, text, &mut scratch, indexes.as_slice(), depth)?;
    Ok(Some(found.0))
}

// Where the part behind these indexes begins, and its first token.
fn begins<'a>(
    alloc: Global,
    text: &'a [u8],
    scratch: &'a mut Scratch,
    indexes: &[usize],
    depth: usize,
) -> Result<(Spot, Token<'a>), Memory>
    ensures { IfOk result (λ found. Begins depth text.now indexes.now found.0 (token_of found.1)) }
{
    let Ok(characters) = std::str::from_utf8(text) else {
        return Ok((spot_at(text, text.len()), Token::Bad));
    };
    match beginning_of(characters, scratch, indexes, depth)? {
        Some(beginning) => {
            let offset = sure_offset(alloc, text, beginning.offset, beginning.token)?;
            Ok((spot_at(text, offset), beginning.token))
        }
        None => Ok((spot_at(text, text.len()), Token::Bad)),
    }
}
