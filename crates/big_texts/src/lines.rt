//! Lines, token by token.
ghost use Rattle.std.specs.Prelude.{◌≡◌, ◌≢◌, ◌++◌, [], ◌∷◌, map, flat_map, IfOk, OnOk, if◌then◌else◌};
ghost use Rattle.std.specs.Str.Lines.{lines};
ghost use Rattle.contract.specs.Collections.Answers.{Aside};
ghost use Rattle.json.specs.Token.{number, string};
ghost use Rattle.json.specs.Reads.{token_of};
ghost use Rattle.json.specs.Print.{IsPrintable};
ghost use Rattle.json_read_inputs.specs.ReadsNumber.{number_of_text};
ghost use Rattle.json_write_contracts.specs.Tokens.{Adds};
ghost use Rattle.big_texts.specs.BigTexts.{is_big};
ghost use Rattle.big_texts.specs.Lines.{big_as_text, is_big_text, line_with_texts, number_token, told};

use crate::place::{Place, behind};
use contract::Memory;
use json::{Reader, Scratch, Token, Writer};
use json_read_names::JsonFault;
use std::alloc::{AllocError, Global};

/// The lines of a text, each of JSON as an outcome is written, with numbers below -2^53 and above 2^53 as texts of their digits. The
/// value of a member `contract` or `minTime` stays as it is. `Memory` where memory was refused, and for bytes that are no JSON.
pub fn big_as_text(alloc: Global, text: &[u8]) -> Result<Vec<u8>, Memory>
    ensures { IfOk result (λ written. written.items ≡ big_as_text text.now) }
{
    let Ok(text) = std::str::from_utf8(text) else {
        return Err(AllocError);
    };
    let lines = lines_of(alloc, text)?;
    with_texts(alloc, lines.as_slice())
}

fn lines_of<'t>(alloc: Global, text: &'t str) -> Result<Vec<&'t str>, Memory>
    ensures { IfOk result (λ found. map (λ line. line.now) found.items ≡ lines text.now) }
{
    text.lines().collect(alloc)
}

#[tactic(auto, using(crate::proofs::LoopLemmas::line_more, crate::proofs::LoopLemmas::lines_done))]
fn with_texts(alloc: Global, lines: &[&str]) -> Result<Vec<u8>, Memory>
    ensures { IfOk result (λ written. written.items ≡ flat_map (λ line. line_with_texts line ++ 10 ∷ []) (map (λ line. line.now) lines.now)) }
{
    let mut out = Vec::new(alloc);
    for line in lines {
        put_line(alloc, &mut out, *line)?;
    }
    Ok(out)
}

fn put_line(alloc: Global, out: &mut Vec<u8>, line: &str) -> Result<(), Memory>
    ensures { OnOk result (out.new.items ≡ out.old.items ++ (line_with_texts line.now ++ 10 ∷ [])) }
{
    let written = line_with_texts(alloc, line)?;
    out.extend_from_slice(&written)?;
    out.push(b'\n')?;
    Ok(())
}

#[tactic(auto, using(crate::proofs::LoopLemmas::token_more))]
fn line_with_texts(alloc: Global, line: &str) -> Result<Vec<u8>, Memory>
    ensures { IfOk result (λ written. written.items ≡ line_with_texts line.now) }
{
    let mut scratch = Scratch::new(alloc);
    let mut reader = Reader::new(line, &mut scratch)?;
    let mut writer = Writer::new(Vec::new(alloc));
    let mut place = Place::Outside;
    'tokens: while let Some(token) = reader.next() {
        put_told(alloc, &mut writer, place, token)?;
        place = behind(place, token)?;
    }
    Ok(writer.into_inner())
}

// A token, as it is told where it stands.
fn put_told(
    alloc: Global,
    writer: &mut Writer,
    place: Place,
    token: Token<'_>,
) -> Result<(), Memory>
    requires { token ≢ Token.Bad → IsPrintable (token_of token) }
    ensures { OnOk result (Adds writer.old writer.new (told place (token_of token.entry) ∷ [])) }
{
    match token {
        Token::Bad => Err(AllocError),
        Token::Number(digits) => {
            if is_text(alloc, place, digits)? {
                writer.string(digits)
            } else {
                writer.token(token)
            }
        }
        _ => writer.token(token),
    }
}

// Whether a number is told as a text.
fn is_text(alloc: Global, place: Place, digits: &str) -> Result<bool, Memory>
    ensures { IfOk result (λ is. number_token place digits.now ≡ (if is then string digits.now else number digits.now)) }
{
    match place {
        Place::Outside => is_big_text(alloc, digits),
        Place::Before | Place::Inside(_) => Ok(false),
    }
}

fn is_big_text(alloc: Global, digits: &str) -> Result<bool, Memory>
    ensures { IfOk result (λ is. is ≡ is_big_text digits.now) }
{
    match number_of_text(alloc, digits) {
        Ok(number) => Ok(is_big(number)),
        Err(JsonFault::Memory) => Err(AllocError),
        Err(_) => Ok(false),
    }
}

// The number whose digits a text is, as they are written.
#[tactic(auto, using(json_read_inputs::proofs::DigitLaws::digit_steps))]
fn number_of_text(alloc: Global, text: &str) -> Result<i128, JsonFault>
    ensures { Aside JsonFault.Memory result (number_of_text text.now) }
{
    match text.parse::<i128>() {
        Ok(number) => {
            let written = format!(in alloc; "{number}")?;
            if written.as_str() == text {
                Ok(number)
            } else {
                Err(JsonFault::NoForm)
            }
        }
        Err(_) => Err(JsonFault::NoForm),
    }
}

// The greatest number up to which a double has all whole ones.
const MOST: i128 = 9_007_199_254_740_992;

fn is_big(number: i128) -> bool
    ensures { result ≡ is_big number }
{
    number < -MOST || MOST < number
}
