//! Where in a text contracts are given as files. No clause says so: what is made with these spots is checked.
ghost use Rattle.std.specs.Prelude.{◌≤◌, length};

use crate::named::file_path;
use collections::Memory;
use json::{Reader, Scratch, Value};
use std::alloc::Global;

/// Where a contract is given as a file: from the first byte of the object to behind its last, and the path in it.
#[derive(Clone, Copy, Debug)]
pub(crate) struct Spot<'a> {
    pub(crate) start: usize,
    pub(crate) end: usize,
    pub(crate) path: &'a str,
}

/// The spots in a text with this tree, in order.
pub(crate) fn spots_of<'a>(
    alloc: Global,
    text: &str,
    tree: &Value<'a>,
) -> Result<Vec<Spot<'a>>, Memory> {
    let mut spots = Vec::new(alloc);
    let mut scratch = Scratch::new(alloc);
    let mut reader = Reader::new(text, &mut scratch)?;
    if let Value::Object(members) = tree {
        walk_members(text, &mut reader, &mut spots, members.as_slice())?;
    }
    Ok(spots)
}

// The members of a scenario.
fn walk_members<'a>(
    text: &str,
    reader: &mut Reader<'_>,
    spots: &mut Vec<Spot<'a>>,
    members: &[(&'a str, Value<'a>)],
) -> Result<(), Memory> {
    pass_token(reader);
    for member in members {
        pass_token(reader);
        if member.0 == "contracts" {
            walk_list(text, reader, spots, &member.1)?;
        } else {
            pass_value(reader);
        }
    }
    Ok(())
}

// The list of contracts.
fn walk_list<'a>(
    text: &str,
    reader: &mut Reader<'_>,
    spots: &mut Vec<Spot<'a>>,
    list: &Value<'a>,
) -> Result<(), Memory> {
    let Value::Array(items) = list else {
        pass_value(reader);
        return Ok(());
    };
    pass_token(reader);
    for item in items {
        walk_item(text, reader, spots, item)?;
    }
    pass_token(reader);
    Ok(())
}

// A named contract.
fn walk_item<'a>(
    text: &str,
    reader: &mut Reader<'_>,
    spots: &mut Vec<Spot<'a>>,
    item: &Value<'a>,
) -> Result<(), Memory> {
    let Value::Object(members) = item else {
        pass_value(reader);
        return Ok(());
    };
    pass_token(reader);
    for member in members {
        pass_token(reader);
        walk_part(text, reader, spots, member.0, &member.1)?;
    }
    pass_token(reader);
    Ok(())
}

// What is behind a key of a named contract.
fn walk_part<'a>(
    text: &str,
    reader: &mut Reader<'_>,
    spots: &mut Vec<Spot<'a>>,
    key: &str,
    part: &Value<'a>,
) -> Result<(), Memory> {
    let start = reader.offset();
    pass_value(reader);
    if key == "contract" {
        if let Some(path) = file_path(part) {
            let end = behind_brace(text.as_bytes(), start, reader.offset());
            spots.push(Spot { start, end, path })?;
        }
    }
    Ok(())
}

// Behind the last closing brace between two places; the first place where there is none.
fn behind_brace(text: &[u8], start: usize, stop: usize) -> usize {
    if start <= stop && stop <= text.len() {
        start + past_brace(&text[start..stop])
    } else {
        start
    }
}

// Behind the last closing brace of a piece.
fn past_brace(piece: &[u8]) -> usize
    ensures { result ≤ length piece.now }
{
    let mut end = 0;
    for (index, byte) in piece.iter().enumerate() {
        if *byte == b'}' {
            end = index + 1;
        }
    }
    end
}

// The reader goes on behind the next token.
fn pass_token(reader: &mut Reader<'_>) {
    let _ = reader.next();
}

// The reader goes on behind the next value.
fn pass_value(reader: &mut Reader<'_>) {
    let _ = reader.skip_value(usize::MAX);
}
