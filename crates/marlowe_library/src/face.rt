//! What C calls.
ghost use Rattle.std.specs.Prelude.{◌≡◌, [], true, false};
ghost use Rattle.marlowe_library.specs.Given.{Tells, TellsIn, readable};

use crate::answering::{answered, put_in};
use crate::session::Session;
use definitions::Definitions;
use serve::Readable;
use std::alloc::Global;

/// Answers a request: the JSON object of a line that `marlowe serve` reads. It writes the answer, a JSON object and a line feed, at the beginning of
/// `answer` where it fits there, and tells its length: where that is more than the room, nothing is written. -1 tells that memory was
/// refused, and nothing is written. A request of more than 4 MiB is refused, and so is one to play. No contract has a name, and none keeps one.
/// With `text_numbers` a number of a state may also be a text of its digits.
#[unsafe(no_mangle)]
pub extern "C" fn marlowe_answer(
    alloc: Global,
    text_numbers: bool,
    request: &[u8],
    answer: &mut [u8],
) -> isize
    ensures { Tells (readable text_numbers) request.now answer.old answer.new result }
{
    let mut definitions = Definitions::new(alloc);
    match answered(alloc, as_given(text_numbers), &mut definitions, 1, request) {
        Ok(text) => put_in(text.as_slice(), answer),
        Err(_) => -1,
    }
}

/// Opens a session, in which contracts keep their names from one request to the next. None has one yet. False tells that memory was refused: it is
/// still closed then.
#[unsafe(no_mangle)]
pub extern "C" fn marlowe_session_open(alloc: Global, session: &mut Session) -> bool
    requires { session.old.is_open ≡ false }
    ensures open { session.new.is_open ≡ result }
    ensures names { result ≡ true → session.new.names ≡ [] }
{
    match Box::new(alloc, Definitions::new(alloc)) {
        Ok(names) => {
            session.put(names);
            true
        }
        Err(_) => false,
    }
}

/// Answers a request in a session as `marlowe_answer` does. A `define` or a `forget` is done also where its answer doesn't fit. Where memory is
/// refused the names stay.
#[unsafe(no_mangle)]
pub extern "C" fn marlowe_session_answer(
    alloc: Global,
    session: &mut Session,
    text_numbers: bool,
    request: &[u8],
    answer: &mut [u8],
) -> isize
    requires { session.old.is_open ≡ true }
    ensures open { session.new.is_open ≡ true }
    ensures tells { TellsIn (readable text_numbers) session.old.names request.now answer.old answer.new result session.new.names }
{
    let mut names = session.take(alloc);
    let told = answered(alloc, as_given(text_numbers), &mut names, 1, request);
    session.put(names);
    match told {
        Ok(text) => put_in(text.as_slice(), answer),
        Err(_) => -1,
    }
}

/// Closes a session, and gives its memory back.
#[unsafe(no_mangle)]
pub extern "C" fn marlowe_session_close(alloc: Global, session: &mut Session)
    requires { session.old.is_open ≡ true }
    ensures { session.new.is_open ≡ false }
{
    drop(session.take(alloc));
}

fn as_given(text_numbers: bool) -> Readable
    ensures { result ≡ readable text_numbers }
{
    Readable {
        depth: 127,
        text_numbers,
    }
}
