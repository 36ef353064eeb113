//! The way through the tokens to a part.
ghost use Rattle.std.specs.Prelude.{◌≡◌, Some, None, IfOk, option_map};
ghost use Rattle.std.specs.Bool.{MatchBool};
ghost use Rattle.json.specs.Json.{skip_value};
ghost use Rattle.json.specs.Lex.{tokens};
ghost use Rattle.json.specs.Reads.{token_of};
ghost use Rattle.part_tokens.specs.PartTokens.{behind_items, behind_key, behind_member, behind_members, token_at, tokens_from, tokens_inside};

use collections::Memory;
use json::{Reader, Scratch, Token};

/// Where a part begins.
#[derive(Clone, Copy)]
pub struct Beginning<'a> {
    /// The offset of its first byte in the text, from 0: where the reader stands once it has taken the tokens before the part.
    pub offset: usize,
    /// Its first token.
    pub token: Token<'a>,
}

/// Where the part of a text begins that a path leads to: of each list the index of an item, and of each object that of a member, from
/// 0. What stands before the part nests no deeper than `depth`. There is none where the path leads nowhere.
pub fn beginning_of<'a>(
    text: &'a str,
    scratch: &'a mut Scratch,
    path: &[usize],
    depth: usize,
) -> Result<Option<Beginning<'a>>, Memory>
    ensures { IfOk result (λ found. option_map (λ b. token_of b.token) found ≡ token_at depth path.now (tokens text.now)) }
{
    let mut reader = Reader::new(text, scratch)?;
    if !go_down(&mut reader, path, depth) {
        return Ok(None);
    }
    let offset = reader.offset();
    match reader.next() {
        Some(token) => Ok(Some(Beginning { offset, token })),
        None => Ok(None),
    }
}

// Takes the tokens before the part, if there is one.
fn go_down(reader: &mut Reader<'_>, path: &[usize], depth: usize) -> bool
    ensures { MatchBool result (tokens_from depth path.now reader.old ≡ Some reader.new) (tokens_from depth path.now reader.old ≡ None) }
{
    for index in path {
        if !go_inside(reader, *index, depth) {
            return false;
        }
    }
    true
}

fn go_inside(reader: &mut Reader<'_>, index: usize, depth: usize) -> bool
    ensures { MatchBool result (tokens_inside depth index reader.old ≡ Some reader.new) (tokens_inside depth index reader.old ≡ None) }
{
    match reader.next() {
        Some(Token::BeginArray) => pass_items(reader, index, depth),
        Some(Token::BeginObject) => pass_members(reader, index, depth),
        _ => false,
    }
}

fn pass_items(reader: &mut Reader<'_>, count: usize, depth: usize) -> bool
    ensures { MatchBool result (behind_items depth count reader.old ≡ Some reader.new) (behind_items depth count reader.old ≡ None) }
{
    for i in 0..count {
        if !pass_value(reader, depth) {
            return false;
        }
    }
    true
}

fn pass_members(reader: &mut Reader<'_>, count: usize, depth: usize) -> bool
    ensures { MatchBool result (behind_members depth count reader.old ≡ Some reader.new) (behind_members depth count reader.old ≡ None) }
{
    for i in 0..count {
        if !pass_member(reader, depth) {
            return false;
        }
    }
    pass_key(reader)
}

fn pass_member(reader: &mut Reader<'_>, depth: usize) -> bool
    ensures { MatchBool result (behind_member depth reader.old ≡ Some reader.new) (behind_member depth reader.old ≡ None) }
{
    if !pass_key(reader) {
        return false;
    }
    pass_value(reader, depth)
}

fn pass_value(reader: &mut Reader<'_>, depth: usize) -> bool
    ensures { MatchBool result (skip_value depth reader.old ≡ Some reader.new) (skip_value depth reader.old ≡ None) }
{
    match reader.skip_value(depth) {
        Ok(()) => true,
        Err(_) => false,
    }
}

fn pass_key(reader: &mut Reader<'_>) -> bool
    ensures { MatchBool result (behind_key reader.old ≡ Some reader.new) (behind_key reader.old ≡ None) }
{
    match reader.next_key() {
        Ok(Some(_)) => true,
        Ok(None) => false,
        Err(_) => false,
    }
}
