//! From a text to the members that aren't read.
ghost use Rattle.std.specs.Prelude.{◌≡◌, None, Some, IfOk, MatchOption, map, take};
ghost use Rattle.json.specs.Value.{value_view};
ghost use Rattle.unread_keys.specs.Unread.{document_within, note_of, notes_in};

use crate::unread::Unread;
use crate::walk::first_unread;
use json::{Error, Reader, Scratch, Value};
use json_forms::Sort;
use names::collections::Memory;
use std::alloc::{AllocError, Global};

/// The members that aren't read of a text, which is read as one of a sort, where lists and objects nest no deeper than `depth`: the
/// first ones, at most `most`, in the order of the text. A list or an object behind a key that isn't read has none. A text that is no
/// JSON has none either. It takes time linear in the text; texts with escapes are written into `scratch`.
pub fn unread_keys<'a>(
    alloc: Global,
    text: &'a str,
    scratch: &'a mut Scratch,
    sort: Sort,
    depth: usize,
    most: usize,
) -> Result<Vec<Unread<'a>>, Memory>
    ensures { IfOk result (λ keys. map note_of keys.items ≡ take most (notes_in depth text.now sort)) }
{
    match tree_of(alloc, text, scratch, depth)? {
        Some(json) => first_unread(alloc, &json, sort, most),
        None => Ok(Vec::new(alloc)),
    }
}

// The tree of a text, if it has one.
fn tree_of<'a>(
    alloc: Global,
    text: &'a str,
    scratch: &'a mut Scratch,
    depth: usize,
) -> Result<Option<Value<'a>>, Memory>
    ensures { IfOk result (λ found. MatchOption found (document_within depth text.now ≡ None)
        (λ json. document_within depth text.now ≡ Some (value_view json))) }
{
    let mut reader = Reader::new(text, scratch)?;
    match Value::read(alloc, &mut reader, depth) {
        Ok(json) => {
            if reader.next().is_some() {
                Ok(None)
            } else {
                Ok(Some(json))
            }
        }
        Err(Error::Invalid) => Ok(None),
        Err(Error::OutOfMemory | Error::TooLong | Error::DuplicateKey) => Err(AllocError),
    }
}
