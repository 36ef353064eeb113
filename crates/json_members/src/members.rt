//! Members behind a text.
ghost use Rattle.std.specs.Prelude.{◌≡◌, ◌++◌, OnOk, codes};
ghost use Rattle.serde_json.specs.Written.{compact_text};
ghost use Rattle.json_members.specs.Members.{member_text, next_text};

use contract::Memory;
use json_write_contracts::{Term, term_text};
use std::alloc::Global;

/// Puts the first member of an object behind a text: its key, which has no letter that JSON escapes, and what stands there.
pub fn put_first<T: Term>(
    alloc: Global,
    out: &mut Vec<u8>,
    key: &str,
    term: &T,
) -> Result<(), Memory>
    ensures { OnOk result (out.new.items ≡ out.old.items ++ member_text key.now (compact_text (T.json term.now))) }
{
    let value = term_text(alloc, term)?;
    put_member(out, key, value.as_bytes())
}

/// Puts a member that comes behind another.
pub fn put_next<T: Term>(
    alloc: Global,
    out: &mut Vec<u8>,
    key: &str,
    term: &T,
) -> Result<(), Memory>
    ensures { OnOk result (out.new.items ≡ out.old.items ++ next_text key.now (compact_text (T.json term.now))) }
{
    let value = term_text(alloc, term)?;
    put_next_text(out, key, value.as_bytes())
}

/// Puts one whose value is a JSON text already.
pub fn put_next_text(out: &mut Vec<u8>, key: &str, value: &[u8]) -> Result<(), Memory>
    ensures { OnOk result (out.new.items ≡ out.old.items ++ next_text key.now value.now) }
{
    put_bytes(out, b",")?;
    put_member(out, key, value)
}

// In steps of two pieces each, which need no proof of their own.
fn put_member(out: &mut Vec<u8>, key: &str, value: &[u8]) -> Result<(), Memory>
    ensures { OnOk result (out.new.items ≡ out.old.items ++ member_text key.now value.now) }
{
    put_bytes(out, b"\"")?;
    put_key_and_value(out, key, value)
}

fn put_key_and_value(out: &mut Vec<u8>, key: &str, value: &[u8]) -> Result<(), Memory>
    ensures { OnOk result (out.new.items ≡ out.old.items ++ (key.now ++ (codes "\":" ++ value.now))) }
{
    put_bytes(out, key.as_bytes())?;
    put_value(out, value)
}

fn put_value(out: &mut Vec<u8>, value: &[u8]) -> Result<(), Memory>
    ensures { OnOk result (out.new.items ≡ out.old.items ++ (codes "\":" ++ value.now)) }
{
    put_bytes(out, b"\":")?;
    put_bytes(out, value)
}

fn put_bytes(out: &mut Vec<u8>, bytes: &[u8]) -> Result<(), Memory>
    ensures { OnOk result (out.new.items ≡ out.old.items ++ bytes.now) }
{
    out.extend_from_slice(bytes)?;
    Ok(())
}
