//! The answer to a request, and where it is written.
ghost use Rattle.std.specs.Prelude.{◌≡◌, ◌<◌, ◌^◌, length, pos, IfOk, OnErr};
ghost use Rattle.marlowe_library.specs.Given.{IsAnswered, put_in};

use collections::Memory;
use definitions::Definitions;
use serve::{LONGEST_LINE, Readable, answer, answer_too_long};
use std::alloc::Global;

// The answer to a request of this number, from 1, which may be too long.
pub(crate) fn answered(
    alloc: Global,
    readable: Readable,
    definitions: &mut Definitions,
    number: u64,
    request: &[u8],
) -> Result<Vec<u8>, Memory>
    requires { readable.depth < 2 ^ 63 }
    ensures answer { IfOk result (λ text. IsAnswered readable definitions.old number request.now text.items definitions.new) }
    ensures err { OnErr result (definitions.new ≡ definitions.old) }
{
    if request.len() > LONGEST_LINE {
        return answer_too_long(alloc, number);
    }
    answer(alloc, readable, definitions, number, request)
}

// Writes a text at the beginning of a room, where it fits, and tells its length.
pub(crate) fn put_in(text: &[u8], room: &mut [u8]) -> isize
    ensures length { result ≡ pos (length text.now) }
    ensures bytes { room.new ≡ put_in text.now room.old }
{
    if text.len() <= room.len() {
        room[..text.len()].copy_from_slice(text);
    }
    text.len() as isize
}
