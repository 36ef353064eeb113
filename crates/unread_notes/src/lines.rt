//! The pieces of a line.
ghost use Rattle.std.specs.Prelude.{◌≡◌, ◌++◌, IfOk, OnOk, codes, decimal, string_bytes};
ghost use Rattle.text_spots.specs.Shown.{path_shown};
ghost use Rattle.unread_keys.specs.Unread.{note_of};
ghost use Rattle.unread_notes.specs.Lines.{at_text, key_shown, key_text, line_of, more_line, path_text, spot_text, step_text, why_text};

use collections::Memory;
use json_forms::key_word;
use json_write_contracts::term_text;
use std::alloc::Global;
use text_spots::{Spot, put_path_shown, text_shown};
use unread_keys::{Step, Unread, Why};

/// Puts the line of a member that isn't read behind a text.
pub(crate) fn put_told(
    alloc: Global,
    out: &mut Vec<u8>,
    file: &str,
    spot: Spot,
    told: &Unread<'_>,
) -> Result<(), Memory>
    ensures { OnOk result (out.new.items ≡ out.old.items ++ line_of file.now spot (note_of told.now)) }
{
    put_pieces(alloc, out, file, spot, &told.path, told.key, told.why)
}

fn put_pieces(
    alloc: Global,
    out: &mut Vec<u8>,
    file: &str,
    spot: Spot,
    path: &[Step],
    key: &str,
    why: Why,
) -> Result<(), Memory>
    ensures { OnOk result (out.new.items ≡ out.old.items ++ (spot_text file.now spot ++ (at_text path.now ++ key_text key.now why))) }
{
    put_spot(alloc, out, file, spot)?;
    put_at(alloc, out, path)?;
    put_key(alloc, out, key, why)
}

fn put_spot(alloc: Global, out: &mut Vec<u8>, file: &str, spot: Spot) -> Result<(), Memory>
    ensures { OnOk result (out.new.items ≡ out.old.items ++ spot_text file.now spot) }
{
    let text = spot_text(alloc, file, spot.line, spot.column)?;
    put_bytes(out, text.as_bytes())
}

fn spot_text(alloc: Global, file: &str, line: usize, column: usize) -> Result<String, Memory>
    ensures { IfOk result (λ text. string_bytes text
        ≡ codes "note: " ++ (file.now ++ (codes ":" ++ (decimal line ++ (codes ":" ++ decimal column))))) }
{
    format!(in alloc; "note: {file}:{line}:{column}")
}

// The way to the object; the whole has none.
fn put_at(alloc: Global, out: &mut Vec<u8>, path: &[Step]) -> Result<(), Memory>
    ensures { OnOk result (out.new.items ≡ out.old.items ++ at_text path.now) }
{
    match path {
        [] => Ok(()),
        _ => put_path(alloc, out, path),
    }
}

fn put_path(alloc: Global, out: &mut Vec<u8>, path: &[Step]) -> Result<(), Memory>
    ensures { OnOk result (out.new.items ≡ out.old.items ++ (codes " at " ++ path_shown (path_text path.now))) }
{
    put_bytes(out, b" at ")?;
    put_cut(alloc, out, path)
}

fn put_cut(alloc: Global, out: &mut Vec<u8>, path: &[Step]) -> Result<(), Memory>
    ensures { OnOk result (out.new.items ≡ out.old.items ++ path_shown (path_text path.now)) }
{
    let text = path_text(alloc, path)?;
    put_path_shown(out, text.as_slice())
}

fn path_text(alloc: Global, path: &[Step]) -> Result<Vec<u8>, Memory>
    ensures { IfOk result (λ text. text.items ≡ path_text path.now) }
{
    let mut out = Vec::new(alloc);
    put_steps(alloc, &mut out, path)?;
    Ok(out)
}

fn put_steps(alloc: Global, out: &mut Vec<u8>, path: &[Step]) -> Result<(), Memory>
    ensures { OnOk result (out.new.items ≡ out.old.items ++ path_text path.now) }
{
    for step in path {
        put_step(alloc, out, *step)?;
    }
    Ok(())
}

fn put_step(alloc: Global, out: &mut Vec<u8>, step: Step) -> Result<(), Memory>
    ensures { OnOk result (out.new.items ≡ out.old.items ++ step_text step) }
{
    match step {
        Step::Key(key) => put_word(out, key_word(key)),
        Step::Item(index) => put_index(alloc, out, index),
    }
}

fn put_word(out: &mut Vec<u8>, word: &str) -> Result<(), Memory>
    ensures { OnOk result (out.new.items ≡ out.old.items ++ (codes "." ++ word.now)) }
{
    put_bytes(out, b".")?;
    put_bytes(out, word.as_bytes())
}

fn put_index(alloc: Global, out: &mut Vec<u8>, index: usize) -> Result<(), Memory>
    ensures { OnOk result (out.new.items ≡ out.old.items ++ step_text (Step.Item index)) }
{
    let text = format!(in alloc; "[{index}]")?;
    put_bytes(out, text.as_bytes())
}

// The key, and why it isn't read.
fn put_key(alloc: Global, out: &mut Vec<u8>, key: &str, why: Why) -> Result<(), Memory>
    ensures { OnOk result (out.new.items ≡ out.old.items ++ key_text key.now why) }
{
    let shown = key_shown(alloc, key)?;
    let text = key_text(alloc, shown.as_str(), why_text(why))?;
    put_bytes(out, text.as_bytes())
}

fn key_shown(alloc: Global, key: &str) -> Result<String, Memory>
    ensures { IfOk result (λ text. string_bytes text ≡ key_shown key.now) }
{
    let quoted = term_text(alloc, &key)?;
    text_shown(alloc, quoted.as_str())
}

fn key_text(alloc: Global, shown: &str, why: &str) -> Result<String, Memory>
    ensures { IfOk result (λ text. string_bytes text ≡ codes ": the key " ++ (shown.now ++ (codes " " ++ (why.now ++ codes "\n")))) }
{
    format!(in alloc; ": the key {shown} {why}\n")
}

fn why_text(why: Why) -> &'static str
    ensures { result.now ≡ why_text why }
{
    match why {
        Why::NoKey => "is not read",
        Why::Again => "stands again; the last is read",
    }
}

// How many notes are told, and how many keys are kept to know whether there are more.
pub(crate) const MOST: usize = 100;

pub(crate) const KEPT: usize = 101;

/// Puts what stands for all notes behind the first hundred, if there are more.
pub(crate) fn put_more(
    alloc: Global,
    out: &mut Vec<u8>,
    file: &str,
    count: usize,
) -> Result<(), Memory>
    ensures { OnOk result (out.new.items ≡ out.old.items ++ more_line file.now count) }
{
    if count > MOST {
        put_and_more(alloc, out, file)
    } else {
        Ok(())
    }
}

fn put_and_more(alloc: Global, out: &mut Vec<u8>, file: &str) -> Result<(), Memory>
    ensures { OnOk result (out.new.items ≡ out.old.items ++ (codes "note: " ++ (file.now ++ codes ": .. and more\n"))) }
{
    let line = more_text(alloc, file)?;
    put_bytes(out, line.as_bytes())
}

fn more_text(alloc: Global, file: &str) -> Result<String, Memory>
    ensures { IfOk result (λ text. string_bytes text ≡ codes "note: " ++ (file.now ++ codes ": .. and more\n")) }
{
    format!(in alloc; "note: {file}: .. and more\n")
}

fn put_bytes(out: &mut Vec<u8>, bytes: &[u8]) -> Result<(), Memory>
    ensures { OnOk result (out.new.items ≡ out.old.items ++ bytes.now) }
{
    out.extend_from_slice(bytes)?;
    Ok(())
}
