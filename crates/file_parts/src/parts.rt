//! Trees of texts.
ghost use Rattle.std.specs.Prelude.{◌≡◌, None, Some, IfOk, MatchOption};
ghost use Rattle.json.specs.Value.{value_view};
ghost use Rattle.file_parts.specs.Files.{document_within};

use collections::Memory;
use json::{Error, Reader, Scratch, Value};
use std::alloc::{AllocError, Global};

/// The tree of a text, if it has one.
pub(crate) fn tree_of<'a>(
    alloc: Global,
    text: &'a str,
    scratch: &'a mut Scratch,
    depth: usize,
) -> Result<Option<Value<'a>>, Memory>
    ensures { IfOk result (λ found. MatchOption found (document_within depth text.now ≡ None)
        (λ json. document_within depth text.now ≡ Some (value_view json))) }
{
    let mut reader = Reader::new(text, scratch)?;
    match Value::read(alloc, &mut reader, depth) {
        Ok(json) => {
            if reader.next().is_some() {
                Ok(None)
            } else {
                Ok(Some(json))
            }
        }
        Err(Error::Invalid) => Ok(None),
        Err(Error::OutOfMemory | Error::TooLong | Error::DuplicateKey) => Err(AllocError),
    }
}
