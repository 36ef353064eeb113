//! The text of a scenario with its files in place.
ghost use Rattle.std.specs.Prelude.{◌≡◌, true, Ok, Some, map, IfOk};
ghost use Rattle.json.specs.Value.{value_view};
ghost use Rattle.file_parts.specs.Files.{HasFiles, document_within, text_of, tree_at, with_files};
ghost use Rattle.file_parts.specs.declared.join.JoinFault.TheVariants as faults;

use crate::parts::tree_of;
use crate::put::{has_files, text_at};
use crate::spots::{Spot, spots_of};
use collections::Memory;
use json::{Scratch, Value};
use std::alloc::{AllocError, AllocFailed, Global};

/// What the file at a path holds.
#[derive(Clone, Copy, Debug)]
pub struct FileText<'a> {
    /// The path, as a scenario has it.
    pub path: &'a str,
    /// The text of the file.
    pub text: &'a str,
}

/// Why files aren't put in.
#[derive(Clone, Copy, Debug)]
pub enum JoinFault {
    /// The scenario with its files nests deeper than it may.
    NotJoined,
    /// Memory was refused.
    Memory,
}

impl From<AllocError> for JoinFault {
    ghost from_gives = { λ _ fault. fault ≡ faults.Memory };

    fn from(_error: AllocError) -> JoinFault {
        JoinFault::Memory
    }
}

impl<T: Drop> From<AllocFailed<T>> for JoinFault {
    ghost from_gives = { λ _ fault. fault ≡ faults.Memory };

    fn from(_error: AllocFailed<T>) -> JoinFault {
        JoinFault::Memory
    }
}

/// The text of a scenario in which the text of each file stands in the place of what names it, line feeds as blanks: so what isn't in a file stays
/// in its line. Of several files at one path the first counts. What names a file that isn't among these, or one that holds no JSON within `depth`, stays, and
/// so does a scenario that is no JSON within `depth`. It takes time linear in the text that it makes, and each file is sought from the first on.
pub fn with_files(
    alloc: Global,
    scenario: &str,
    depth: usize,
    files: &[FileText<'_>],
) -> Result<Vec<u8>, JoinFault>
    ensures { IfOk result (λ text. HasFiles depth scenario.now (map text_of files.now) text.items) }
{
    let mut scratch = Scratch::new(alloc);
    match tree_of(alloc, scenario, &mut scratch, depth)? {
        Some(tree) => tree_with_files(alloc, scenario, &tree, depth, files),
        None => Ok(Vec::from_slice(alloc, scenario.as_bytes())?),
    }
}

fn tree_with_files(
    alloc: Global,
    scenario: &str,
    tree: &Value<'_>,
    depth: usize,
    files: &[FileText<'_>],
) -> Result<Vec<u8>, JoinFault>
    ensures { IfOk result (λ text. document_within depth text.items
        ≡ Some (with_files (tree_at depth (map text_of files.now)) (value_view tree.now))) }
{
    let spots = spots_of(alloc, scenario, tree)?;
    let text = joined(alloc, scenario.as_bytes(), spots.as_slice(), files)?;
    let is = is_joined(alloc, tree, depth, files, text.as_slice())?;
    if is {
        Ok(text)
    } else {
        Err(JoinFault::NotJoined)
    }
}

// Whether a text's tree is this one with these files in place.
fn is_joined(
    alloc: Global,
    tree: &Value<'_>,
    depth: usize,
    files: &[FileText<'_>],
    text: &[u8],
) -> Result<bool, Memory>
    ensures { result ≡ Ok true → document_within depth text.now
        ≡ Some (with_files (tree_at depth (map text_of files.now)) (value_view tree.now)) }
{
    let Ok(text) = simdutf8::compat::from_utf8(text) else {
        return Ok(false);
    };
    let mut scratch = Scratch::new(alloc);
    match tree_of(alloc, text, &mut scratch, depth)? {
        Some(new) => has_files(alloc, files, depth, tree, &new),
        None => Ok(false),
    }
}

// The text with the files at these spots.
fn joined(
    alloc: Global,
    scenario: &[u8],
    spots: &[Spot<'_>],
    files: &[FileText<'_>],
) -> Result<Vec<u8>, Memory> {
    let mut text = Vec::new(alloc);
    let mut done = 0;
    for spot in spots {
        if let Some(file) = text_at(files, spot.path) {
            put_piece(&mut text, scenario, done, spot.start)?;
            put_blanked(&mut text, file.as_bytes())?;
            done = spot.end;
        }
    }
    put_piece(&mut text, scenario, done, scenario.len())?;
    Ok(text)
}

// The bytes from one place to another, if there are such places.
fn put_piece(text: &mut Vec<u8>, scenario: &[u8], start: usize, end: usize) -> Result<(), Memory> {
    if start <= end && end <= scenario.len() {
        text.extend_from_slice(&scenario[start..end])?;
    }
    Ok(())
}

// A file's text, with line feeds as blanks.
fn put_blanked(text: &mut Vec<u8>, file: &[u8]) -> Result<(), Memory> {
    for byte in file {
        let byte = if *byte == b'\n' { b' ' } else { *byte };
        text.push(byte)?;
    }
    Ok(())
}
