//! Lines behind a head.
ghost use Rattle.std.specs.Prelude.{◌≡◌, ◌++◌, ◌∷◌, [], true, OnOk, IfOk, if◌then◌else◌, string_bytes};
ghost use Rattle.step_notes.specs.StepLines.{headed};

use contract::Memory;
use std::alloc::{AllocError, Global};

// A byte, behind the head where it begins a line.
fn put_byte(out: &mut Vec<u8>, head: &str, starts: bool, byte: u8) -> Result<(), Memory>
    ensures { OnOk result (out.new.items ≡ out.old.items ++ ((if starts then head.now else []) ++ byte ∷ [])) }
{
    if starts {
        out.extend_from_slice(head.as_bytes())?;
    }
    out.push(byte)?;
    Ok(())
}

fn put_headed(out: &mut Vec<u8>, head: &str, text: &[u8]) -> Result<(), Memory>
    ensures { OnOk result (out.new.items ≡ out.old.items ++ headed head.now true text.now) }
{
    let mut starts = true;
    for byte in text {
        put_byte(out, head, starts, *byte)?;
        starts = *byte == b'\n';
    }
    Ok(())
}

fn text_of(bytes: Vec<u8>) -> Result<String, Memory>
    ensures { IfOk result (λ text. string_bytes text ≡ bytes.items) }
{
    match String::from_utf8(bytes) {
        Ok(text) => Ok(text),
        // (never: the lines and their heads are texts)
        Err(_) => Err(AllocError),
    }
}

/// Each line of a text behind a head.
pub(crate) fn headed(alloc: Global, head: &str, text: &str) -> Result<String, Memory>
    ensures { IfOk result (λ told. string_bytes told ≡ headed head.now true text.now) }
{
    let mut out = Vec::new(alloc);
    put_headed(&mut out, head, text.as_bytes())?;
    text_of(out)
}
