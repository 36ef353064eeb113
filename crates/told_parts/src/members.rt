//! The members of a part at which reading stops, for tools.
ghost use Rattle.std.specs.Prelude.{◌≡◌, ◌++◌, IfOk, OnOk, OnErr, codes, map, option_map, take};
ghost use Rattle.serde_json.specs.Data.{string};
ghost use Rattle.json.specs.Reads.{token_of};
ghost use Rattle.json_write_contracts.specs.Tokens.{Keeps, Puts};
ghost use Rattle.json_members.specs.Members.{next_member, next_text, words_json};
ghost use Rattle.told_parts.specs.Lines as lines;
ghost use Rattle.told_parts.specs.Members as spec;
ghost use Rattle.told_parts.specs.Told.{seen};

use crate::hints::{hint_text, near_key};
use crate::part::Told;
use crate::pieces::{put_bytes, token_text};
use crate::words::sort_text;
use json::{Token, Writer};
use json_forms::{ScenarioSort, Sort, key_word};
use json_members::{Count, Words, put_first, put_next, put_next_text};
use json_stops::Step;
use json_write_contracts::{Term, word};
use names::collections::Memory;
use std::alloc::Global;
use text_spots::Spot;

/// What is told of a part at which reading stops, as members of a JSON object without its braces: where it is, what is wanted and
/// what stands there, what to do about it and what may have been meant, and what else there is to tell.
pub fn told_members(alloc: Global, file: &str, told: &Told<'_, '_>) -> Result<Vec<u8>, Memory>
    ensures { IfOk result (λ members. members.items ≡ spec.members_of file.now (seen told.now)) }
{
    let mut out = Vec::new(alloc);
    put_where(alloc, &mut out, file, told.spot, told.path)?;
    put_what(alloc, &mut out, told)?;
    put_hint(alloc, &mut out, told)?;
    put_others(alloc, &mut out, told)?;
    Ok(out)
}

/// The same of a value whose text isn't known: without the file, lines and columns, and without names.
pub fn part_members(alloc: Global, told: &Told<'_, '_>) -> Result<Vec<u8>, Memory>
    ensures { IfOk result (λ members. members.items ≡ spec.part_members (seen told.now)) }
{
    let mut out = Vec::new(alloc);
    put_first(alloc, &mut out, "place", &Path(told.path))?;
    put_what(alloc, &mut out, told)?;
    put_hint(alloc, &mut out, told)?;
    Ok(out)
}

// ---- where

fn put_where(
    alloc: Global,
    out: &mut Vec<u8>,
    file: &str,
    spot: Spot,
    path: &[Step],
) -> Result<(), Memory>
    ensures { OnOk result (out.new.items ≡ out.old.items
        ++ (spec.spot_members file.now spot ++ next_member (codes "place") (spec.path_json path.now))) }
{
    put_spot_members(alloc, out, file, spot)?;
    put_next(alloc, out, "place", &Path(path))
}

/// Puts the file, the line and the column behind a text: the first members of an object.
pub fn put_spot_members(
    alloc: Global,
    out: &mut Vec<u8>,
    file: &str,
    spot: Spot,
) -> Result<(), Memory>
    ensures { OnOk result (out.new.items ≡ out.old.items ++ spec.spot_members file.now spot) }
{
    put_first(alloc, out, "file", &file)?;
    put_next(alloc, out, "line", &Count(spot.line))?;
    put_next(alloc, out, "column", &Count(spot.column))
}

// The way to a part, from the whole.
#[derive(Clone, Copy)]
struct Path<'a>(&'a [Step]);

impl<'a> Term for Path<'a> {
    ghost json = { λ path. spec.path_json path.0.now };

    fn put(&self, _alloc: Global, out: &mut Writer) -> Result<(), Memory> {
        put_path(out, self.0)
    }
}

fn put_path(out: &mut Writer, path: &[Step]) -> Result<(), Memory>
    ensures put { OnOk result (Puts out.old out.new (spec.path_json path.now)) }
    ensures err { OnErr result (Keeps out.old out.new) }
{
    out.begin_array()?;
    for step in path {
        put_step(out, *step)?;
    }
    out.end_array()?;
    Ok(())
}

fn put_step(out: &mut Writer, step: Step) -> Result<(), Memory>
    ensures put { OnOk result (Puts out.old out.new (spec.step_json step)) }
    ensures err { OnErr result (Keeps out.old out.new) }
{
    match step {
        Step::Key(key) => word(out, key_word(key)),
        Step::Item(index) => put_index(out, index),
    }
}

fn put_index(out: &mut Writer, index: usize) -> Result<(), Memory>
    ensures put { OnOk result (Puts out.old out.new (spec.step_json (Step.Item index))) }
    ensures err { OnErr result (Keeps out.old out.new) }
{
    out.u64(index as u64)?;
    Ok(())
}

// ---- what is wanted, and what stands there

fn put_what(alloc: Global, out: &mut Vec<u8>, told: &Told<'_, '_>) -> Result<(), Memory>
    ensures { OnOk result (out.new.items ≡ out.old.items ++ spec.what_members (seen told.now)) }
{
    put_wanted(alloc, out, told.sort)?;
    put_stands(alloc, out, told.token)?;
    put_keys(alloc, out, told.token, told.keys)
}

fn put_wanted(alloc: Global, out: &mut Vec<u8>, sort: Sort) -> Result<(), Memory>
    ensures { OnOk result (out.new.items ≡ out.old.items ++ next_member (codes "wanted") (string (spec.wanted_text sort))) }
{
    put_next(alloc, out, "wanted", &wanted_text(sort))
}

fn wanted_text(sort: Sort) -> &'static str
    ensures { result.now ≡ spec.wanted_text sort }
{
    match sort {
        Sort::Repeated(_) => "an entry with a key of its own",
        _ => sort_text(sort),
    }
}

fn put_stands(alloc: Global, out: &mut Vec<u8>, token: Token<'_>) -> Result<(), Memory>
    ensures { OnOk result (out.new.items ≡ out.old.items ++ next_member (codes "stands") (string (lines.token_text (token_of token.entry)))) }
{
    let stands = token_text(alloc, token)?;
    put_next(alloc, out, "stands", &stands.as_str())
}

// The first ten keys of an object.
fn put_keys(alloc: Global, out: &mut Vec<u8>, token: Token<'_>, keys: &[&str]) -> Result<(), Memory>
    ensures { OnOk result (out.new.items ≡ out.old.items ++ spec.keys_member (token_of token.entry) (map (λ key. key.now) keys.now)) }
{
    match token {
        Token::BeginObject => put_ten(alloc, out, "keys", keys),
        Token::EndObject
        | Token::BeginArray
        | Token::EndArray
        | Token::Key(_)
        | Token::String(_)
        | Token::Number(_)
        | Token::Bool(_)
        | Token::Null
        | Token::Bad => Ok(()),
    }
}

fn put_ten(alloc: Global, out: &mut Vec<u8>, key: &str, words: &[&str]) -> Result<(), Memory>
    ensures { OnOk result (out.new.items ≡ out.old.items
        ++ next_member key.now (words_json (take 10 (map (λ word. word.now) words.now)))) }
{
    put_next(alloc, out, key, &Words(first_ten(words)))
}

fn first_ten<'w, 'a>(words: &'w [&'a str]) -> &'w [&'a str]
    ensures { result.now ≡ take 10 words.now }
{
    if words.len() > 10 {
        &words[..10]
    } else {
        words
    }
}

// ---- what to do

fn put_hint(alloc: Global, out: &mut Vec<u8>, told: &Told<'_, '_>) -> Result<(), Memory>
    ensures { OnOk result (out.new.items ≡ out.old.items ++ spec.hint_members (seen told.now)) }
{
    put_hint_text(alloc, out, told)?;
    put_near(alloc, out, near_key(told.sort, told.keys))
}

fn put_hint_text(alloc: Global, out: &mut Vec<u8>, told: &Told<'_, '_>) -> Result<(), Memory>
    ensures { OnOk result (out.new.items ≡ out.old.items
        ++ next_member (codes "hint") (string (lines.hint_text told.now.fault (seen told.now)))) }
{
    let hint = hint_text(alloc, told)?;
    put_next(alloc, out, "hint", &hint.as_str())
}

fn put_near(alloc: Global, out: &mut Vec<u8>, key: Option<&str>) -> Result<(), Memory>
    ensures { OnOk result (out.new.items ≡ out.old.items ++ spec.near_member (option_map (λ key. key.now) key.entry)) }
{
    match key {
        Some(near) => put_next(alloc, out, "nearest", &near),
        None => Ok(()),
    }
}

// ---- what else there is

fn put_others(alloc: Global, out: &mut Vec<u8>, told: &Told<'_, '_>) -> Result<(), Memory>
    ensures { OnOk result (out.new.items ≡ out.old.items ++ spec.other_members (seen told.now)) }
{
    put_first_spot(alloc, out, told.first)?;
    put_names(alloc, out, told.sort, told.names)
}

// Where the first entry with the same key stands.
fn put_first_spot(alloc: Global, out: &mut Vec<u8>, first: Option<Spot>) -> Result<(), Memory>
    ensures { OnOk result (out.new.items ≡ out.old.items ++ spec.first_spot_member first) }
{
    match first {
        Some(spot) => put_spot_object(alloc, out, spot),
        None => Ok(()),
    }
}

fn put_spot_object(alloc: Global, out: &mut Vec<u8>, spot: Spot) -> Result<(), Memory>
    ensures { OnOk result (out.new.items ≡ out.old.items ++ next_text (codes "first") (spec.spot_object spot)) }
{
    let object = spot_object(alloc, spot)?;
    put_next_text(out, "first", object.as_slice())
}

fn spot_object(alloc: Global, spot: Spot) -> Result<Vec<u8>, Memory>
    ensures { IfOk result (λ text. text.items ≡ spec.spot_object spot) }
{
    let mut out = Vec::new(alloc);
    put_bytes(&mut out, b"{")?;
    put_first(alloc, &mut out, "line", &Count(spot.line))?;
    put_next(alloc, &mut out, "column", &Count(spot.column))?;
    put_bytes(&mut out, b"}")?;
    Ok(out)
}

// The first ten names that there are.
fn put_names(alloc: Global, out: &mut Vec<u8>, sort: Sort, names: &[&str]) -> Result<(), Memory>
    ensures { OnOk result (out.new.items ≡ out.old.items ++ spec.names_member (spec.names_told sort (map (λ name. name.now) names.now))) }
{
    match sort {
        Sort::OfScenario(ScenarioSort::NameOf(_)) => put_ten(alloc, out, "names", names),
        _ => Ok(()),
    }
}
