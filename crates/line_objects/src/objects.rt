//! The object of a text's lines.
ghost use Rattle.std.specs.Prelude.{◌≡◌, IfOk, map};
ghost use Rattle.std.specs.Str.Lines.{lines};
ghost use Rattle.line_objects.specs.Objects.{lines_object, list_object};

use collections::Memory;
use json_members::{Words, put_first};
use std::alloc::{AllocError, Global};

/// The object of a text's lines, and a line feed. `Memory` where memory was refused, and for bytes that are no text in UTF-8.
pub fn lines_object(alloc: Global, text: &[u8]) -> Result<Vec<u8>, Memory>
    ensures { IfOk result (λ object. object.items ≡ lines_object text.now) }
{
    let Ok(text) = std::str::from_utf8(text) else {
        return Err(AllocError);
    };
    let lines = lines_of(alloc, text)?;
    list_object(alloc, lines.as_slice())
}

fn lines_of<'t>(alloc: Global, text: &'t str) -> Result<Vec<&'t str>, Memory>
    ensures { IfOk result (λ found. map (λ line. line.now) found.items ≡ lines text.now) }
{
    text.lines().collect(alloc)
}

fn list_object(alloc: Global, lines: &[&str]) -> Result<Vec<u8>, Memory>
    ensures { IfOk result (λ object. object.items ≡ list_object (map (λ line. line.now) lines.now)) }
{
    let mut object = Vec::from_slice(alloc, b"{")?;
    put_first(alloc, &mut object, "lines", &Words(lines))?;
    object.extend_from_slice(b"}\n")?;
    Ok(object)
}
