//! Places as they are printed.
ghost use Rattle.std.specs.Prelude.{◌≡◌, ◌++◌, codes, OnOk, OnErr};
ghost use Rattle.json_write_contracts.specs.Tokens.{Keeps, Puts};
ghost use Rattle.places.specs.Texts.{key_text, place_text, key_json, place_json};

use crate::key::{Key, key_word};
use contract::Memory;
use json::Writer;
use json_write_contracts::word;
use std::alloc::Global;

/// Puts keys behind a text, as people read them: `.when[0].then`.
pub fn put_place(alloc: Global, out: &mut Vec<u8>, place: &[Key]) -> Result<(), Memory>
    ensures { OnOk result (out.new.items ≡ out.old.items ++ place_text place.now) }
{
    for key in place {
        put_key(alloc, out, *key)?;
    }
    Ok(())
}

// A key with `.` before it, and an index in brackets.
fn put_key(alloc: Global, out: &mut Vec<u8>, key: Key) -> Result<(), Memory>
    ensures { OnOk result (out.new.items ≡ out.old.items ++ key_text key) }
{
    match key {
        Key::Item(index) => put_index(alloc, out, index),
        name => put_word(out, key_word(name)),
    }
}

fn put_index(alloc: Global, out: &mut Vec<u8>, index: usize) -> Result<(), Memory>
    ensures { OnOk result (out.new.items ≡ out.old.items ++ key_text (Key.Item index)) }
{
    let text = format!(in alloc; "[{index}]")?;
    put_bytes(out, text.as_bytes())
}

fn put_word(out: &mut Vec<u8>, word: &str) -> Result<(), Memory>
    ensures { OnOk result (out.new.items ≡ out.old.items ++ (codes "." ++ word.now)) }
{
    put_bytes(out, b".")?;
    put_bytes(out, word.as_bytes())
}

fn put_bytes(out: &mut Vec<u8>, bytes: &[u8]) -> Result<(), Memory>
    ensures { OnOk result (out.new.items ≡ out.old.items ++ bytes.now) }
{
    out.extend_from_slice(bytes)?;
    Ok(())
}

/// Writes keys as a list: words, and indexes as numbers. Where it fails, what was written before stays, with some tokens
/// behind it or none.
pub fn put_place_json(out: &mut Writer, place: &[Key]) -> Result<(), Memory>
    ensures put { OnOk result (Puts out.old out.new (place_json place.now)) }
    ensures err { OnErr result (Keeps out.old out.new) }
{
    out.begin_array()?;
    for key in place {
        put_key_json(out, *key)?;
    }
    out.end_array()?;
    Ok(())
}

fn put_key_json(out: &mut Writer, key: Key) -> Result<(), Memory>
    ensures put { OnOk result (Puts out.old out.new (key_json key)) }
    ensures err { OnErr result (Keeps out.old out.new) }
{
    match key {
        Key::Item(index) => put_index_json(out, index),
        name => word(out, key_word(name)),
    }
}

fn put_index_json(out: &mut Writer, index: usize) -> Result<(), Memory>
    ensures put { OnOk result (Puts out.old out.new (key_json (Key.Item index))) }
    ensures err { OnErr result (Keeps out.old out.new) }
{
    out.u64(index as u64)?;
    Ok(())
}
