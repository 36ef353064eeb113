//! The piece of a text that is one transaction of many.
ghost use Rattle.std.specs.Prelude.{◌≡◌, Some, IfOk, IfSome, slice_get};
ghost use Rattle.refusal_reasons.specs.Reasons.{TellsPiece, TellsPieceOf};

use crate::source::{Source, Sources};
use crate::texts::flat_told;
use contract::Memory;
use explanations::{JsonFault, MAX_DEPTH, Sort, Spelling, beginning_of, json_of};
use json::Scratch;
use json_tree::JsonValue;
use std::alloc::{AllocError, Global};

// How transactions stand in a text, and how many.
#[derive(Clone, Copy)]
enum Layout {
    // The text is one, or can't be one.
    Whole,
    // Items of a list.
    Items(usize),
    // Lines that aren't blank.
    Lines(usize),
}

// From where to where a piece of a text goes.
#[derive(Clone, Copy)]
struct Span {
    begin: usize,
    end: usize,
}

/// Why the transaction of a number isn't read, from 1 through all texts.
pub(crate) fn piece_told(
    alloc: Global,
    sources: Sources<'_>,
    number: u64,
    spelling: Spelling,
) -> Result<Vec<u8>, Memory>
    ensures { IfOk result (λ written. TellsPiece spelling sources.entry written.items) }
{
    let mut index = usize::try_from(number)
        .unwrap_or(usize::MAX)
        .saturating_sub(1);
    for at in 0..sources.texts.len() {
        let layout = layout_of(alloc, sources.texts[at].as_slice())?;
        let count = count_of(layout);
        if index < count {
            return source_told(alloc, sources, at, layout, index, spelling);
        }
        index -= count;
    }
    Err(AllocError)
}

fn path_at<'a>(paths: &[&'a str], at: usize) -> Option<&'a str>
    ensures { IfSome result (λ path. slice_get paths.now at ≡ Some path) }
{
    if at < paths.len() {
        Some(paths[at])
    } else {
        None
    }
}

// Why the transaction at an index of a text isn't read.
fn source_told(
    alloc: Global,
    sources: Sources<'_>,
    at: usize,
    layout: Layout,
    index: usize,
    spelling: Spelling,
) -> Result<Vec<u8>, Memory>
    ensures { IfOk result (λ written. TellsPiece spelling sources.entry written.items) }
{
    let Some(path) = path_at(sources.paths, at) else {
        return Err(AllocError);
    };
    let Some(text) = sources.texts.get(at) else {
        return Err(AllocError);
    };
    placed_told(alloc, path, text.as_slice(), layout, index, spelling)
}

fn layout_of(alloc: Global, text: &[u8]) -> Result<Layout, Memory> {
    let mut scratch = Scratch::new(alloc);
    match json_of(alloc, text, &mut scratch) {
        Ok(json) => Ok(match json.items() {
            Some(items) => Layout::Items(items.len()),
            None => Layout::Whole,
        }),
        Err(JsonFault::NotJson) => Ok(Layout::Lines(line_count(text))),
        Err(JsonFault::Memory) => Err(AllocError),
        Err(_) => Ok(Layout::Whole),
    }
}

fn count_of(layout: Layout) -> usize {
    match layout {
        Layout::Whole => 1,
        Layout::Items(count) | Layout::Lines(count) => count,
    }
}

// .. under a path.
fn placed_told(
    alloc: Global,
    path: &str,
    text: &[u8],
    layout: Layout,
    index: usize,
    spelling: Spelling,
) -> Result<Vec<u8>, Memory>
    ensures { IfOk result (λ written. TellsPieceOf spelling path.now written.items) }
{
    match span_of(alloc, text, layout, index)? {
        Some(span) => {
            let piece = piece_of(alloc, text, span)?;
            piece_text_told(alloc, path, piece.as_slice(), spelling)
        }
        None => piece_text_told(alloc, path, text, spelling),
    }
}

// Where it stands, if it isn't the whole text.
fn span_of(
    alloc: Global,
    text: &[u8],
    layout: Layout,
    index: usize,
) -> Result<Option<Span>, Memory> {
    match layout {
        Layout::Whole => Ok(None),
        Layout::Items(count) => item_span(alloc, text, index, count),
        Layout::Lines(_) => line_span(alloc, text, index),
    }
}

fn piece_text_told(
    alloc: Global,
    path: &str,
    text: &[u8],
    spelling: Spelling,
) -> Result<Vec<u8>, Memory>
    ensures { IfOk result (λ written. TellsPieceOf spelling path.now written.items) }
{
    flat_told(alloc, Source { path, text }, Sort::Transaction, spelling)
}

// ---- items of a list

fn item_span(
    alloc: Global,
    text: &[u8],
    index: usize,
    count: usize,
) -> Result<Option<Span>, Memory> {
    let Ok(characters) = std::str::from_utf8(text) else {
        return Ok(None);
    };
    let Some(begin) = item_beginning(alloc, characters, index)? else {
        return Ok(None);
    };
    let next = index.saturating_add(1);
    let behind = if next < count {
        item_beginning(alloc, characters, next)?
    } else {
        None
    };
    let end = behind.unwrap_or(text.len());
    Ok(Some(Span {
        begin: past_mark(text, begin),
        end: before_mark(text, end),
    }))
}

fn item_beginning(alloc: Global, text: &str, index: usize) -> Result<Option<usize>, Memory> {
    let mut scratch = Scratch::new(alloc);
    let found = beginning_of(text, &mut scratch, &[index], MAX_DEPTH)?;
    Ok(match found {
        Some(beginning) => Some(beginning.offset),
        None => None,
    })
}

fn is_between(byte: u8) -> bool {
    matches!(byte, b' ' | b'\t' | b'\r' | b'\n' | b',')
}

// Past blanks and a comma.
fn past_mark(text: &[u8], begin: usize) -> usize {
    for at in begin..text.len() {
        if !is_between(text[at]) {
            return at;
        }
    }
    text.len()
}

// Before the comma or the bracket behind an item, and the blanks around it.
fn before_mark(text: &[u8], end: usize) -> usize {
    let mut last: usize = 0;
    for at in 0..text.len().min(end) {
        if !is_between(text[at]) {
            last = at;
        }
    }
    if end >= text.len() && text.get(last) == Some(&b']') {
        last
    } else {
        last.saturating_add(1)
    }
}

// ---- lines

fn is_blank(line: &[u8]) -> bool {
    line.iter()
        .all(|byte| *byte == b' ' || *byte == b'\t' || *byte == b'\r')
}

fn line_count(text: &[u8]) -> usize {
    let mut count: usize = 0;
    for line in text.split(|byte| *byte == b'\n') {
        if !is_blank(line) {
            count = count.saturating_add(1);
        }
    }
    count
}

// The line at an index, blank ones left out; none where the first line is no JSON: then the text is no list of lines.
fn line_span(alloc: Global, text: &[u8], index: usize) -> Result<Option<Span>, Memory> {
    if index == 0 && is_broken(alloc, first_line(text))? {
        return Ok(None);
    }
    Ok(span_of_line(text, index))
}

fn first_line(text: &[u8]) -> &[u8] {
    for line in text.split(|byte| *byte == b'\n') {
        if !is_blank(line) {
            return line;
        }
    }
    text
}

fn is_broken(alloc: Global, line: &[u8]) -> Result<bool, Memory> {
    let mut scratch = Scratch::new(alloc);
    match json_of(alloc, line, &mut scratch) {
        Err(JsonFault::NotJson) => Ok(true),
        Err(JsonFault::Memory) => Err(AllocError),
        _ => Ok(false),
    }
}

fn span_of_line(text: &[u8], index: usize) -> Option<Span> {
    let mut begin: usize = 0;
    let mut left = index;
    for line in text.split(|byte| *byte == b'\n') {
        let end = begin.saturating_add(line.len());
        if !is_blank(line) {
            if left == 0 {
                return Some(Span { begin, end });
            }
            left -= 1;
        }
        begin = end.saturating_add(1);
    }
    None
}

// ---- pieces

// A piece of a text behind blanks in place of what stands before it: lines and columns stay.
fn piece_of(alloc: Global, text: &[u8], span: Span) -> Result<Vec<u8>, Memory> {
    let mut piece = Vec::new(alloc);
    for (index, byte) in text.iter().enumerate() {
        if index >= span.end {
            return Ok(piece);
        }
        if index >= span.begin || *byte == b'\n' {
            piece.push(*byte)?;
        } else if *byte < 0x80 || *byte >= 0xc0 {
            piece.push(b' ')?;
        }
    }
    Ok(piece)
}
