//! Lines inside lines.
ghost use Rattle.std.specs.Prelude.{◌≡◌, ◌++◌, ◌∷◌, [], true, OnOk, if◌then◌else◌, codes};
ghost use Rattle.marlowe_explain.specs.Lines.{indented};

use crate::words::put_bytes;
use contract::Memory;

/// Puts each line of a text behind four blanks, and all behind another text.
pub(crate) fn put_indented(out: &mut Vec<u8>, text: &[u8]) -> Result<(), Memory>
    ensures { OnOk result (out.new.items ≡ out.old.items ++ indented true text.now) }
{
    let mut starts = true;
    for byte in text {
        put_byte(out, starts, *byte)?;
        starts = *byte == b'\n';
    }
    Ok(())
}

// A byte, behind four blanks where it begins a line.
fn put_byte(out: &mut Vec<u8>, starts: bool, byte: u8) -> Result<(), Memory>
    ensures { OnOk result (out.new.items ≡ out.old.items ++ ((if starts then codes "    " else []) ++ byte ∷ [])) }
{
    if starts {
        put_bytes(out, b"    ")?;
    }
    out.push(byte)?;
    Ok(())
}
