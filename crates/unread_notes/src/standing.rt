//! Whether a key stands at an offset.
ghost use Rattle.std.specs.Prelude.{◌≡◌, Some, true, IfOk, drop};
ghost use Rattle.json.specs.Lex.{tokens};
ghost use Rattle.json.specs.Token.{key as key_token};
ghost use Rattle.json.specs.Reads.{token_of};
ghost use Rattle.part_tokens.specs.PartTokens.{first_token};
ghost use Rattle.unread_notes.specs.Notes.{KeyStands};

use collections::Memory;
use json::{Reader, Scratch, Token};

/// Where a reader that has taken so many tokens stands once it has taken others, up to so many.
pub(crate) fn offset_behind(reader: &mut Reader<'_>, taken: usize, wanted: usize) -> usize {
    for _ in taken..wanted {
        let _ = reader.next();
    }
    reader.offset()
}

/// The offset, if the text goes on with the key there, or else the end of the text. `scratch` serves one text after another.
pub(crate) fn sure_offset(
    scratch: &mut Scratch,
    text: &str,
    offset: usize,
    key: &str,
) -> Result<usize, Memory>
    ensures { IfOk result (λ n. KeyStands text.now n key.now) }
{
    let stands = stands_at(scratch, text, offset, key)?;
    if stands { Ok(offset) } else { Ok(text.len()) }
}

fn stands_at(scratch: &mut Scratch, text: &str, offset: usize, key: &str) -> Result<bool, Memory>
    ensures { IfOk result (λ yes. yes ≡ true → first_token (tokens (drop offset text.now)) ≡ Some (key_token key.now)) }
{
    match text.split_at_checked(offset) {
        Some((_, rest)) => begins_with(scratch, rest, key),
        None => Ok(false),
    }
}

fn begins_with(scratch: &mut Scratch, rest: &str, key: &str) -> Result<bool, Memory>
    ensures { IfOk result (λ yes. yes ≡ true → first_token (tokens rest.now) ≡ Some (key_token key.now)) }
{
    let mut reader = Reader::new(rest, scratch)?;
    match reader.next() {
        Some(first) => Ok(is_key(first, key)),
        None => Ok(false),
    }
}

fn is_key(first: Token<'_>, key: &str) -> bool
    ensures { result ≡ true → token_of first.entry ≡ key_token key.now }
{
    match first {
        Token::Key(found) => found == key,
        _ => false,
    }
}
