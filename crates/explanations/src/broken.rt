//! Where a text breaks the form of JSON.
ghost use Rattle.std.specs.Prelude.{◌≡◌, ◌⊎◌, IfOk};

use json::{Reader, Scratch, Token};
use json_tree::{Refusal, from_slice};
use names::collections::Memory;
use std::alloc::{AllocError, Global};

/// Why a text is no JSON.
#[derive(Clone, Copy, Debug)]
pub enum NoJson {
    /// It isn't UTF-8 from an offset on.
    NotUtf8,
    /// A byte order mark stands before it.
    Mark,
    /// A list or an object begins inside as many others as may be.
    TooDeep,
    /// What stands at an offset can't stand there: a token, a number beyond all floats, or the end of the text.
    Syntax,
}

/// How deep lists and objects may nest in a transaction or a state that is read, and in a contract or a scenario unless more is asked for.
pub const MAX_DEPTH: usize = 127;

// A number of so many bytes without an exponent is one that floats reach.
const SURELY_SMALL: usize = 300;

// A list or an object that hasn't ended.
#[derive(Clone, Copy)]
enum Open {
    List,
    Object,
}

// What may come next.
#[derive(Clone, Copy)]
enum Wanted {
    Value,
    ItemOrEnd,
    KeyOrEnd,
    Nothing,
}

/// Why a text is no JSON, and at which offset: at its first token that can't stand there, or at its end.
pub(crate) fn first_break(
    alloc: Global,
    text: &str,
    depth: usize,
) -> Result<(NoJson, usize), Memory>
    ensures { IfOk result (λ found. (found.0 ≡ NoJson.TooDeep) ⊎ (found.0 ≡ NoJson.Syntax)) }
{
    let mut scratch = Scratch::new(alloc);
    let mut of_numbers = Scratch::new(alloc);
    let mut reader = Reader::new(text, &mut scratch)?;
    let mut open = Vec::new(alloc);
    let mut wanted = Wanted::Value;
    for _ in 0..text.len() {
        let offset = reader.offset();
        let Some(token) = reader.next() else {
            return Ok((NoJson::Syntax, offset));
        };
        let beyond = is_beyond_floats(alloc, token, &mut of_numbers)?;
        if beyond || !fits(wanted, token) {
            return Ok((NoJson::Syntax, offset));
        }
        if begins(token) && open.len() >= depth {
            return Ok((NoJson::TooDeep, offset));
        }
        wanted = pass(&mut open, token)?;
    }
    Ok((NoJson::Syntax, text.len()))
}

fn fits(wanted: Wanted, token: Token<'_>) -> bool {
    match token {
        Token::Key(_) => matches!(wanted, Wanted::KeyOrEnd),
        Token::EndObject => matches!(wanted, Wanted::KeyOrEnd),
        Token::EndArray => matches!(wanted, Wanted::ItemOrEnd),
        Token::Bad => false,
        _ => matches!(wanted, Wanted::Value | Wanted::ItemOrEnd),
    }
}

fn begins(token: Token<'_>) -> bool {
    matches!(token, Token::BeginObject | Token::BeginArray)
}

// A number that no float is near to isn't read.
fn is_beyond_floats(
    alloc: Global,
    token: Token<'_>,
    scratch: &mut Scratch,
) -> Result<bool, Memory> {
    let Token::Number(number) = token else {
        return Ok(false);
    };
    if number.len() <= SURELY_SMALL && !has_exponent(number) {
        return Ok(false);
    }
    match from_slice(alloc, number.as_bytes(), scratch) {
        Ok(_) => Ok(false),
        Err(Refusal::NotJson) => Ok(true),
        Err(Refusal::Memory) => Err(AllocError),
    }
}

fn has_exponent(number: &str) -> bool {
    number
        .as_bytes()
        .iter()
        .any(|byte| *byte == b'e' || *byte == b'E')
}

// What may come behind a token.
fn pass(open: &mut Vec<Open>, token: Token<'_>) -> Result<Wanted, Memory> {
    match token {
        Token::BeginObject => open.push(Open::Object)?,
        Token::BeginArray => open.push(Open::List)?,
        Token::Key(_) => return Ok(Wanted::Value),
        Token::EndObject | Token::EndArray => {
            let _ended = open.pop();
        }
        _ => {}
    }
    Ok(match open.last() {
        Some(Open::Object) => Wanted::KeyOrEnd,
        Some(Open::List) => Wanted::ItemOrEnd,
        None => Wanted::Nothing,
    })
}
