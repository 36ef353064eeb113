//! What is told of a text that is no JSON, or too long.
ghost use Rattle.std.specs.Prelude.{◌≡◌, ◌++◌, ◌<◌, ◌≤◌, drop, length, IfOk, OnOk, Some, codes, decimal, string_bytes};
ghost use Rattle.std.specs.Str.Lossy.{utf8_lossy};
ghost use Rattle.told_parts.specs.Lines.{piece_shown};
ghost use Rattle.explanations.specs.TextLines as spec;
ghost use Rattle.explanations.specs.TextLines.{IsReason, has_mark, rest_text};
ghost use Rattle.explanations.specs.Explained.{IsToldNoJson, no_json_spelled, too_long_spelled};

use crate::broken::{NoJson, first_break};
use crate::how::How;
use json_members::{Count, Spelling, put_first, put_next};
use names::collections::Memory;
use std::alloc::Global;
use text_spots::{spot_at, text_shown};
use told_parts::{put_spot, put_spot_members};

/// What is told of a text that is too long.
pub(crate) fn too_long_told(
    alloc: Global,
    file: &str,
    count: usize,
    spelling: Spelling,
) -> Result<Vec<u8>, Memory>
    ensures { IfOk result (λ written. written.items ≡ too_long_spelled spelling file.now count) }
{
    match spelling {
        Spelling::Lines => too_long_line(alloc, file, count),
        Spelling::Members => too_long_members(alloc, file, count),
    }
}

fn too_long_line(alloc: Global, file: &str, count: usize) -> Result<Vec<u8>, Memory>
    ensures { IfOk result (λ lines. lines.items ≡ spec.too_long_line file.now count) }
{
    let text = format!(in alloc; "  {file}: {count} bytes, and 1048576 are read\n")?;
    let mut out = Vec::new(alloc);
    put_bytes(&mut out, text.as_bytes())?;
    Ok(out)
}

fn too_long_members(alloc: Global, file: &str, count: usize) -> Result<Vec<u8>, Memory>
    ensures { IfOk result (λ members. members.items ≡ spec.too_long_members file.now count) }
{
    let mut out = Vec::new(alloc);
    put_first(alloc, &mut out, "file", &file)?;
    put_next(alloc, &mut out, "length", &Count(count))?;
    Ok(out)
}

/// What is told of a text that is no JSON.
pub(crate) fn no_json_told(
    alloc: Global,
    file: &str,
    text: &[u8],
    how: How,
) -> Result<Vec<u8>, Memory>
    ensures { IfOk result (λ written. IsToldNoJson how file.now text.now written.items) }
{
    let (reason, offset) = reason_of(alloc, text, how.depth)?;
    told_reason(alloc, file, text, reason, offset, how)
}

// The byte order mark of UTF-8.
const MARK: [u8; 3] = [0xef, 0xbb, 0xbf];

// Why, and at which offset.
fn reason_of(alloc: Global, text: &[u8], depth: usize) -> Result<(NoJson, usize), Memory>
    ensures { IfOk result (λ found. IsReason text.now found.0 found.1) }
{
    match std::str::from_utf8(text) {
        Err(error) => Ok((NoJson::NotUtf8, error.valid_up_to())),
        Ok(characters) => {
            if text.starts_with(&MARK) {
                Ok((NoJson::Mark, 0))
            } else {
                first_break(alloc, characters, depth)
            }
        }
    }
}

fn told_reason(
    alloc: Global,
    file: &str,
    text: &[u8],
    reason: NoJson,
    offset: usize,
    how: How,
) -> Result<Vec<u8>, Memory>
    ensures { IfOk result (λ written. written.items
        ≡ no_json_spelled how.spelling how.depth file.now text.now reason offset) }
{
    match how.spelling {
        Spelling::Lines => reason_lines(alloc, file, text, reason, offset, how.depth),
        Spelling::Members => reason_members(alloc, file, text, reason, offset, how.depth),
    }
}

fn reason_lines(
    alloc: Global,
    file: &str,
    text: &[u8],
    reason: NoJson,
    offset: usize,
    depth: usize,
) -> Result<Vec<u8>, Memory>
    ensures { IfOk result (λ lines. lines.items ≡ spec.no_json_lines depth file.now text.now reason offset) }
{
    let mut out = Vec::new(alloc);
    put_spot(alloc, &mut out, file, spot_at(text, offset))?;
    put_bytes(&mut out, b": ")?;
    put_reason(alloc, &mut out, depth, reason, behind(text, offset))?;
    Ok(out)
}

fn reason_members(
    alloc: Global,
    file: &str,
    text: &[u8],
    reason: NoJson,
    offset: usize,
    depth: usize,
) -> Result<Vec<u8>, Memory>
    ensures { IfOk result (λ members. members.items ≡ spec.no_json_members depth file.now text.now reason offset) }
{
    let words = reason_words(alloc, depth, reason, behind(text, offset))?;
    let mut out = Vec::new(alloc);
    put_spot_members(alloc, &mut out, file, spot_at(text, offset))?;
    put_next(alloc, &mut out, "reason", &words.as_str())?;
    put_hint_member(alloc, &mut out, reason)?;
    Ok(out)
}

/// The bytes from an offset on.
pub(crate) fn behind(text: &[u8], offset: usize) -> &[u8]
    ensures { result.now ≡ drop offset text.now }
{
    if offset < text.len() {
        &text[offset..]
    } else {
        &[]
    }
}

fn put_reason(
    alloc: Global,
    out: &mut Vec<u8>,
    depth: usize,
    reason: NoJson,
    rest: &[u8],
) -> Result<(), Memory>
    ensures { OnOk result (out.new.items ≡ out.old.items ++ spec.reason_text depth reason rest.now) }
{
    let words = reason_words(alloc, depth, reason, rest)?;
    put_bytes(out, words.as_bytes())?;
    put_bytes(out, b"\n")?;
    put_hint_line(out, reason)
}

// Why, in words.
fn reason_words(alloc: Global, depth: usize, reason: NoJson, rest: &[u8]) -> Result<String, Memory>
    ensures { IfOk result (λ words. string_bytes words ≡ spec.reason_words depth reason rest.now) }
{
    match reason {
        NoJson::NotUtf8 => format!(in alloc; "no UTF-8"),
        NoJson::Mark => format!(in alloc; "a byte order mark stands before the text"),
        NoJson::TooDeep => format!(in alloc; "nested deeper than {depth}"),
        NoJson::Syntax => syntax_words(alloc, rest),
    }
}

fn syntax_words(alloc: Global, rest: &[u8]) -> Result<String, Memory>
    ensures { IfOk result (λ words. string_bytes words ≡ codes "no JSON; here stands " ++ rest_text rest.now) }
{
    let stands = rest_text(alloc, rest)?;
    format!(in alloc; "no JSON; here stands {stands}")
}

// What to do about a text that is nested too deep.
fn put_hint_line(out: &mut Vec<u8>, reason: NoJson) -> Result<(), Memory>
    ensures { OnOk result (out.new.items ≡ out.old.items ++ spec.reason_hint_line reason) }
{
    match reason {
        NoJson::TooDeep => put_bytes(
            out,
            b"  wait less often in a row, or run what is left as a contract of its own\n",
        ),
        NoJson::NotUtf8 | NoJson::Mark | NoJson::Syntax => Ok(()),
    }
}

fn put_hint_member(alloc: Global, out: &mut Vec<u8>, reason: NoJson) -> Result<(), Memory>
    ensures { OnOk result (out.new.items ≡ out.old.items ++ spec.reason_hint_member reason) }
{
    match reason {
        NoJson::TooDeep => put_next(
            alloc,
            out,
            "hint",
            &"wait less often in a row, or run what is left as a contract of its own",
        ),
        NoJson::NotUtf8 | NoJson::Mark | NoJson::Syntax => Ok(()),
    }
}

fn rest_text(alloc: Global, rest: &[u8]) -> Result<String, Memory>
    ensures { IfOk result (λ text. string_bytes text ≡ rest_text rest.now) }
{
    match rest {
        [] => format!(in alloc; "the end of the text"),
        _ => shown_text(alloc, rest),
    }
}

fn shown_text(alloc: Global, rest: &[u8]) -> Result<String, Memory>
    ensures { IfOk result (λ text. string_bytes text ≡ piece_shown (utf8_lossy rest.now)) }
{
    let text = String::from_utf8_lossy(alloc, rest)?;
    text_shown(alloc, text.as_str())
}

fn put_bytes(out: &mut Vec<u8>, bytes: &[u8]) -> Result<(), Memory>
    ensures { OnOk result (out.new.items ≡ out.old.items ++ bytes.now) }
{
    out.extend_from_slice(bytes)?;
    Ok(())
}
