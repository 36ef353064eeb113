//! From the name and the text of a file to the notes.
ghost use Rattle.std.specs.Prelude.{◌≡◌, List, IfOk, OnOk, map, take};
ghost use Rattle.std.specs.Str.{IsUtf8};
ghost use Rattle.unread_keys.specs.Unread.{Note, note_of, notes_in};
ghost use Rattle.text_spots.specs.Spots.{spot_at};
ghost use Rattle.unread_notes.specs.Notes.{AreNotes, KeyStands, PutsLine, PutsLines};

use crate::lines::{KEPT, MOST, put_more, put_told};
use crate::standing::{offset_behind, sure_offset};
use collections::Memory;
use json::{Reader, Scratch};
use json_forms::Sort;
use std::alloc::Global;
use text_spots::{Spot, spot_at, spot_from};
use unread_keys::{Unread, unread_keys};

/// The notes on the text of a file, which is read as one of a sort, where lists and objects nest no deeper than `depth`: a line for each
/// key that isn't read, in the order of the text, a hundred at most, and then whether there are more. `file` is the name that they tell.
/// A text that is no JSON has none. `Memory` where memory was refused. It takes time linear in the text.
pub fn notes_on(
    alloc: Global,
    file: &str,
    text: &[u8],
    sort: Sort,
    depth: usize,
) -> Result<Vec<u8>, Memory>
    ensures { IfOk result (λ lines. IsUtf8 text.now → AreNotes file.now text.now (notes_in depth text.now sort) lines.items) }
{
    match std::str::from_utf8(text) {
        Ok(characters) => notes_of(alloc, file, characters, sort, depth),
        Err(_) => Ok(Vec::new(alloc)),
    }
}

fn notes_of(
    alloc: Global,
    file: &str,
    text: &str,
    sort: Sort,
    depth: usize,
) -> Result<Vec<u8>, Memory>
    ensures { IfOk result (λ lines. AreNotes file.now text.now (notes_in depth text.now sort) lines.items) }
{
    let mut scratch = Scratch::new(alloc);
    let keys = unread_keys(alloc, text, &mut scratch, sort, depth, KEPT)?;
    all_lines(alloc, file, text, keys.as_slice())
}

fn all_lines(alloc: Global, file: &str, text: &str, keys: &[Unread<'_>]) -> Result<Vec<u8>, Memory>
    ensures { IfOk result (λ lines. (all : List Note) → map note_of keys.now ≡ take 101 all → AreNotes file.now text.now all lines.items) }
{
    let mut out = Vec::new(alloc);
    put_lines(alloc, &mut out, file, text, first_ones(keys, MOST))?;
    put_more(alloc, &mut out, file, keys.len())?;
    Ok(out)
}

// The first ones, at most so many.
#[tactic(auto, using(std::proofs::lemmas::List::take_all))]
fn first_ones<'k, 'a>(keys: &'k [Unread<'a>], count: usize) -> &'k [Unread<'a>]
    ensures { result.now ≡ take count keys.now }
{
    if count < keys.len() {
        &keys[..count]
    } else {
        keys
    }
}

#[tactic(auto, using(crate::proofs::NotesLemmas::no_lines))]
fn put_lines(
    alloc: Global,
    out: &mut Vec<u8>,
    file: &str,
    text: &str,
    keys: &[Unread<'_>],
) -> Result<(), Memory>
    ensures { OnOk result (PutsLines file.now text.now (map note_of keys.now) out.old.items out.new.items) }
{
    match keys {
        [] => Ok(()),
        _ => put_some_lines(alloc, out, file, text, keys),
    }
}

// Each begins where a reader stands that goes on from one key to the next.
fn put_some_lines(
    alloc: Global,
    out: &mut Vec<u8>,
    file: &str,
    text: &str,
    keys: &[Unread<'_>],
) -> Result<(), Memory>
    ensures { OnOk result (PutsLines file.now text.now (map note_of keys.now) out.old.items out.new.items) }
{
    let mut scratch = Scratch::new(alloc);
    let mut reader = Reader::new(text, &mut scratch)?;
    let mut other = Scratch::new(alloc);
    let mut place = beginning(text);
    for key in keys {
        let offset = offset_behind(&mut reader, place.tokens, key.tokens);
        place = put_line(alloc, out, &mut other, file, text, place, offset, key)?;
    }
    Ok(())
}

// A place in the text: how many tokens stand before it, its offset, and its spot.
#[derive(Clone, Copy)]
struct Place {
    tokens: usize,
    offset: usize,
    spot: Spot,
}

fn beginning(text: &str) -> Place
    ensures { result.spot ≡ spot_at text.now result.offset }
{
    Place {
        tokens: 0,
        offset: 0,
        spot: spot_at(text.as_bytes(), 0),
    }
}

// Puts a line, whose key seems to begin at an offset, and tells where it stands. The spot is counted on from that of the last key.
fn put_line(
    alloc: Global,
    out: &mut Vec<u8>,
    scratch: &mut Scratch,
    file: &str,
    text: &str,
    last: Place,
    offset: usize,
    key: &Unread<'_>,
) -> Result<Place, Memory>
    requires { last.spot ≡ spot_at text.now last.offset }
    ensures line { OnOk result (PutsLine file.now text.now (note_of key.now) out.old.items out.new.items) }
    ensures spot { IfOk result (λ place. place.spot ≡ spot_at text.now place.offset) }
{
    let place = place_of(scratch, text, last, offset, key)?;
    put_told(alloc, out, file, place.spot, key)?;
    Ok(place)
}

fn place_of(
    scratch: &mut Scratch,
    text: &str,
    last: Place,
    offset: usize,
    key: &Unread<'_>,
) -> Result<Place, Memory>
    requires { last.spot ≡ spot_at text.now last.offset }
    ensures stands { IfOk result (λ place. KeyStands text.now place.offset key.now.key.now) }
    ensures spot { IfOk result (λ place. place.spot ≡ spot_at text.now place.offset) }
{
    let tokens = key.tokens;
    let offset = sure_offset(scratch, text, offset, key.key)?;
    let spot = spot_from(text.as_bytes(), last.offset, last.spot, offset);
    Ok(Place {
        tokens,
        offset,
        spot,
    })
}
