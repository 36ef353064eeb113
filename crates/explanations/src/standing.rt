//! Whether a token stands at an offset.
ghost use Rattle.std.specs.Prelude.{◌≡◌, Some, true, IfOk};
ghost use Rattle.json.specs.Lex.{tokens};
ghost use Rattle.json.specs.Token.{number, string};
ghost use Rattle.json.specs.Reads.{token_of};
ghost use Rattle.part_tokens.specs.PartTokens.{first_token};
ghost use Rattle.explanations.specs.Explained.{StandsAt};

use crate::text_lines::behind;
use json::{Reader, Scratch, Token};
use names::collections::Memory;
use std::alloc::Global;

/// The offset, if the text goes on with the token there, or else the end of the text.
pub(crate) fn sure_offset(
    alloc: Global,
    text: &[u8],
    offset: usize,
    token: Token<'_>,
) -> Result<usize, Memory>
    ensures { IfOk result (λ n. StandsAt text.now n (token_of token.entry)) }
{
    let stands = begins_with(alloc, behind(text, offset), token)?;
    if stands { Ok(offset) } else { Ok(text.len()) }
}

fn begins_with(alloc: Global, rest: &[u8], token: Token<'_>) -> Result<bool, Memory>
    ensures { IfOk result (λ yes. yes ≡ true → first_token (tokens rest.now) ≡ Some (token_of token.entry)) }
{
    let Ok(characters) = std::str::from_utf8(rest) else {
        return Ok(false);
    };
    let mut scratch = Scratch::new(alloc);
    let mut reader = Reader::new(characters, &mut scratch)?;
    match reader.next() {
        Some(first) => Ok(is_same(first, token)),
        None => Ok(false),
    }
}

fn is_same(first: Token<'_>, token: Token<'_>) -> bool
    ensures { result ≡ true → token_of first.entry ≡ token_of token.entry }
{
    match first {
        Token::BeginObject => matches!(token, Token::BeginObject),
        Token::BeginArray => matches!(token, Token::BeginArray),
        Token::String(text) => is_string(token, text),
        Token::Number(text) => is_number(token, text),
        Token::Bool(true) => matches!(token, Token::Bool(true)),
        Token::Bool(false) => matches!(token, Token::Bool(false)),
        Token::Null => matches!(token, Token::Null),
        _ => false,
    }
}

fn is_string(token: Token<'_>, text: &str) -> bool
    ensures { result ≡ true → string text.now ≡ token_of token.entry }
{
    match token {
        Token::String(other) => text == other,
        _ => false,
    }
}

fn is_number(token: Token<'_>, text: &str) -> bool
    ensures { result ≡ true → number text.now ≡ token_of token.entry }
{
    match token {
        Token::Number(other) => text == other,
        _ => false,
    }
}
