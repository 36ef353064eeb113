//! Pieces of texts as they are shown.
ghost use Rattle.std.specs.Prelude.{◌≡◌, ◌<◌, ◌-◌, [], ◌∷◌, ◌++◌, length, take, drop, IfOk, OnOk, chars, encode_utf8_all, string_bytes};
ghost use Rattle.std.specs.Char.{digit_char};
ghost use Rattle.text_spots.specs.Shown.{escape, is_among, is_hidden, path_shown, rest_mark, seen, shown};

use collections::Memory;
use std::alloc::Global;

// How many characters of a text are shown.
const MOST_SHOWN: usize = 60;

/// What is shown of a text: its first 60 characters, and `..` where there are more. A control character, and one that ends a line or
/// turns the direction of the text, is escaped as JSON escapes it.
pub fn text_shown(alloc: Global, text: &str) -> Result<String, Memory>
    ensures { IfOk result (λ piece. string_bytes piece ≡ encode_utf8_all (shown (chars text.now))) }
{
    let mut out = String::new(alloc);
    let mut count = 0;
    for c in text.chars() {
        if count == MOST_SHOWN {
            out.push_str("..")?;
            return Ok(out);
        }
        put_seen(&mut out, c)?;
        count += 1;
    }
    Ok(out)
}

fn put_seen(out: &mut String, c: char) -> Result<(), Memory>
    ensures { OnOk result (string_bytes out.new ≡ string_bytes out.old ++ encode_utf8_all (seen c)) }
{
    if is_hidden(c) {
        put_escape(out, c as u32)
    } else {
        put_char(out, c)
    }
}

fn put_escape(out: &mut String, code: u32) -> Result<(), Memory>
    ensures { OnOk result (string_bytes out.new ≡ string_bytes out.old ++ encode_utf8_all (escape code)) }
{
    let first = digit(code / 4096 % 16);
    let second = digit(code / 256 % 16);
    let third = digit(code / 16 % 16);
    let fourth = digit(code % 16);
    put_char(out, '\\')?;
    put_char(out, 'u')?;
    put_char(out, first)?;
    put_char(out, second)?;
    put_char(out, third)?;
    put_char(out, fourth)
}

fn put_char(out: &mut String, c: char) -> Result<(), Memory>
    ensures { OnOk result (string_bytes out.new ≡ string_bytes out.old ++ encode_utf8_all (c ∷ [])) }
{
    out.push(c)?;
    Ok(())
}

// The hexadecimal digit of a number.
fn digit(number: u32) -> char
    requires { number < 16 }
    ensures { result ≡ digit_char number }
{
    if number < 10 {
        (b'0' + number as u8) as char
    } else {
        (b'a' + (number as u8 - 10)) as char
    }
}

fn is_hidden(c: char) -> bool
    ensures { result ≡ is_hidden c }
{
    let code = c as u32;
    code < 32
        || is_among(127, 159, code)
        || is_among(8206, 8207, code)
        || is_among(8232, 8238, code)
        || is_among(8294, 8297, code)
}

fn is_among(first: u32, last: u32, code: u32) -> bool
    ensures { result ≡ is_among first last code }
{
    first <= code && code <= last
}

// How many bytes of a path are shown, and how many of them stand on each side of what is left out.
const MOST_OF_PATH: usize = 400;

const SIDE: usize = 199;

/// Puts a path behind a text: whole where it has at most 400 bytes, and else its first 199, `..` and its last 199.
pub fn put_path_shown(out: &mut Vec<u8>, path: &[u8]) -> Result<(), Memory>
    ensures { OnOk result (out.new.items ≡ out.old.items ++ path_shown path.now) }
{
    if path.len() <= MOST_OF_PATH {
        put_bytes(out, path)
    } else {
        put_sides(out, path)
    }
}

#[tactic(auto, using(crate::proofs::ShownLemmas::three_pieces))]
fn put_sides(out: &mut Vec<u8>, path: &[u8]) -> Result<(), Memory>
    requires { 400 < length path.now }
    ensures { OnOk result (out.new.items ≡ out.old.items ++ (take 199 path.now ++ (rest_mark ++ drop (length path.now - 199) path.now))) }
{
    let first = &path[..SIDE];
    let last = &path[path.len() - SIDE..];
    put_bytes(out, first)?;
    put_bytes(out, b"..")?;
    put_bytes(out, last)
}

fn put_bytes(out: &mut Vec<u8>, bytes: &[u8]) -> Result<(), Memory>
    ensures { OnOk result (out.new.items ≡ out.old.items ++ bytes.now) }
{
    out.extend_from_slice(bytes)?;
    Ok(())
}
