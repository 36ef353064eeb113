//! Pieces of lines.
ghost use Rattle.std.specs.Prelude.{◌≡◌, ◌∷◌, ◌++◌, ◌-◌, length, IfOk, OnOk, codes, flat_map, map, string_bytes, take};
ghost use Rattle.json.specs.Reads.{token_of};
ghost use Rattle.told_parts.specs.Lines as spec;
ghost use Rattle.told_parts.specs.Lines.{keys_text, more_keys_text, next_key_text, others_text, path_text, step_text, text_shown, token_text};

use json::Token;
use json_forms::key_word;
use json_stops::Step;
use json_write_contracts::term_text;
use names::collections::Memory;
use std::alloc::Global;

/// Puts bytes behind a text.
pub(crate) fn put_bytes(out: &mut Vec<u8>, bytes: &[u8]) -> Result<(), Memory>
    ensures { OnOk result (out.new.items ≡ out.old.items ++ bytes.now) }
{
    out.extend_from_slice(bytes)?;
    Ok(())
}

/// A text as it stands in JSON.
pub(crate) fn text_shown(alloc: Global, text: &str) -> Result<String, Memory>
    ensures { IfOk result (λ piece. string_bytes piece ≡ text_shown text.now) }
{
    let quoted = term_text(alloc, &text)?;
    text_spots::text_shown(alloc, quoted.as_str())
}

/// What stands there.
pub(crate) fn token_text(alloc: Global, token: Token<'_>) -> Result<String, Memory>
    ensures { IfOk result (λ piece. string_bytes piece ≡ token_text (token_of token.entry)) }
{
    match token {
        Token::BeginObject => format!(in alloc; "an object"),
        Token::BeginArray => format!(in alloc; "a list"),
        Token::String(text) | Token::Key(text) => text_shown(alloc, text),
        Token::Number(text) => text_spots::text_shown(alloc, text),
        Token::Bool(true) => format!(in alloc; "true"),
        Token::Bool(false) => format!(in alloc; "false"),
        Token::Null => format!(in alloc; "null"),
        Token::EndObject | Token::EndArray | Token::Bad => format!(in alloc; "nothing"),
    }
}

/// Puts the keys of an object behind a text, ten at most.
pub(crate) fn put_keys(alloc: Global, out: &mut Vec<u8>, keys: &[&str]) -> Result<(), Memory>
    ensures { OnOk result (out.new.items ≡ out.old.items ++ keys_text (map (λ key. key.now) keys.now)) }
{
    match keys {
        [] => put_bytes(out, b"it has no keys"),
        [first, rest @ ..] => put_some_keys(alloc, out, first, rest),
    }
}

fn put_some_keys(alloc: Global, out: &mut Vec<u8>, first: &str, rest: &[&str]) -> Result<(), Memory>
    ensures { OnOk result (out.new.items ≡ out.old.items ++ keys_text (first.now ∷ map (λ key. key.now) rest.now)) }
{
    put_bytes(out, b"its keys are ")?;
    put_key(alloc, out, first)?;
    put_more_keys(alloc, out, rest)
}

/// Puts at most nine more, and that there are others.
pub(crate) fn put_more_keys(alloc: Global, out: &mut Vec<u8>, keys: &[&str]) -> Result<(), Memory>
    ensures { OnOk result (out.new.items ≡ out.old.items ++ more_keys_text (map (λ key. key.now) keys.now)) }
{
    put_each_key(alloc, out, first_nine(keys))?;
    put_others(out, keys.len())
}

fn first_nine<'k, 'a>(keys: &'k [&'a str]) -> &'k [&'a str]
    ensures { result.now ≡ take 9 keys.now }
{
    if keys.len() > 9 { &keys[..9] } else { keys }
}

fn put_others(out: &mut Vec<u8>, count: usize) -> Result<(), Memory>
    ensures { OnOk result (out.new.items ≡ out.old.items ++ others_text count) }
{
    if count > 9 {
        put_bytes(out, b", ..")
    } else {
        Ok(())
    }
}

// Each behind a comma.
fn put_each_key(alloc: Global, out: &mut Vec<u8>, keys: &[&str]) -> Result<(), Memory>
    ensures { OnOk result (out.new.items ≡ out.old.items ++ flat_map (λ key. next_key_text key.now) keys.now) }
{
    for key in keys {
        put_next_key(alloc, out, key)?;
    }
    Ok(())
}

fn put_next_key(alloc: Global, out: &mut Vec<u8>, key: &str) -> Result<(), Memory>
    ensures { OnOk result (out.new.items ≡ out.old.items ++ next_key_text key.now) }
{
    put_bytes(out, b", ")?;
    put_key(alloc, out, key)
}

/// Puts a text as it stands in JSON.
pub(crate) fn put_key(alloc: Global, out: &mut Vec<u8>, key: &str) -> Result<(), Memory>
    ensures { OnOk result (out.new.items ≡ out.old.items ++ text_shown key.now) }
{
    let text = text_shown(alloc, key)?;
    put_bytes(out, text.as_bytes())
}

/// The path to a part as it is printed.
pub(crate) fn path_text(alloc: Global, path: &[Step]) -> Result<Vec<u8>, Memory>
    ensures { IfOk result (λ text. text.items ≡ path_text path.now) }
{
    let mut out = Vec::new(alloc);
    put_steps(alloc, &mut out, path)?;
    Ok(out)
}

/// The path to another item of the list to whose item a path leads.
pub fn beside(alloc: Global, path: &[Step], index: usize) -> Result<Vec<Step>, Memory>
    ensures { IfOk result (λ beside. beside.items ≡ spec.beside path.now index) }
{
    let mut out = copied(alloc, all_but_last(path))?;
    out.push(Step::Item(index))?;
    Ok(out)
}

fn copied(alloc: Global, path: &[Step]) -> Result<Vec<Step>, Memory>
    ensures { IfOk result (λ copy. copy.items ≡ path.now) }
{
    let mut out = Vec::new(alloc);
    for step in path {
        out.push(*step)?;
    }
    Ok(out)
}

fn all_but_last(path: &[Step]) -> &[Step]
    ensures { result.now ≡ take (length path.now - 1) path.now }
{
    if path.len() > 0 {
        &path[..path.len() - 1]
    } else {
        path
    }
}

fn put_steps(alloc: Global, out: &mut Vec<u8>, path: &[Step]) -> Result<(), Memory>
    ensures { OnOk result (out.new.items ≡ out.old.items ++ path_text path.now) }
{
    for step in path {
        put_step(alloc, out, *step)?;
    }
    Ok(())
}

fn put_step(alloc: Global, out: &mut Vec<u8>, step: Step) -> Result<(), Memory>
    ensures { OnOk result (out.new.items ≡ out.old.items ++ step_text step) }
{
    match step {
        Step::Key(key) => put_word(out, key_word(key)),
        Step::Item(index) => put_index(alloc, out, index),
    }
}

fn put_word(out: &mut Vec<u8>, word: &str) -> Result<(), Memory>
    ensures { OnOk result (out.new.items ≡ out.old.items ++ (codes "." ++ word.now)) }
{
    put_bytes(out, b".")?;
    put_bytes(out, word.as_bytes())
}

fn put_index(alloc: Global, out: &mut Vec<u8>, index: usize) -> Result<(), Memory>
    ensures { OnOk result (out.new.items ≡ out.old.items ++ step_text (Step.Item index)) }
{
    let text = format!(in alloc; "[{index}]")?;
    put_bytes(out, text.as_bytes())
}
