//! What to do about a fault.
ghost use Rattle.std.specs.Prelude.{◌≡◌, ◌++◌, find, not, chars, IfOk, codes, decimal, encode_utf8, map, option_map, string_bytes};
ghost use Rattle.std.specs.List.{list_all};
ghost use Rattle.json.specs.Reads.{token_of};
ghost use Rattle.text_spots.specs.Shown.{is_among};
ghost use Rattle.json_forms.specs.Forms.{Field};
ghost use Rattle.json_forms.specs.Lacking.{is_there};
ghost use Rattle.told_parts.specs.Lines.{are_digits, bad_state_hint, hex_hint, is_digit, hint_text, is_digits, is_hex, is_of_contracts, is_of_numbers, lacking_text, letter_text, no_form_hint, sought, sought_text, text_shown, wants_text};
ghost use Rattle.told_parts.specs.Lines as spec;
ghost use Rattle.told_parts.specs.Told.{seen};

use crate::part::Told;
use crate::pieces::text_shown;
use crate::words::{form_text, sort_hint};
use json::Token;
use json_forms::{
    Form, Key, Numbers, ScenarioSort, Sort, key_word, lacking_key, meant_form, nearest_key,
};
use json_read_names::JsonFault;
use names::collections::Memory;
use std::alloc::Global;

// How many keys an object may have for which a form is sought.
const MOST_SOUGHT: usize = 100;

/// What to do about a part at which reading stops.
pub(crate) fn hint_text(alloc: Global, told: &Told<'_, '_>) -> Result<String, Memory>
    ensures { IfOk result (λ text. string_bytes text ≡ hint_text told.now.fault (seen told.now)) }
{
    match told.fault {
        JsonFault::NoForm => no_form_hint(alloc, told),
        JsonFault::NotWhole => word(alloc, sort_hint(Sort::Whole)),
        JsonFault::OutOfRange => word(alloc, sort_hint(told.sort)),
        JsonFault::BadHex => hex_hint(alloc, told.token),
        JsonFault::Merkleized => word(alloc, "put what follows in its place, as \"then\""),
        JsonFault::BadState => word(alloc, bad_state_hint(told.sort)),
        JsonFault::NotJson | JsonFault::TooLong | JsonFault::Memory => Ok(String::new(alloc)),
    }
}

fn word(alloc: Global, word: &str) -> Result<String, Memory>
    ensures { IfOk result (λ text. string_bytes text ≡ word.now) }
{
    Ok(String::from_str(alloc, word)?)
}

fn bad_state_hint(sort: Sort) -> &'static str
    ensures { result.now ≡ bad_state_hint sort }
{
    match sort {
        Sort::Repeated(first) => sort_hint(Sort::Repeated(first)),
        _ => "an account holds a number above 0: leave out one that holds nothing",
    }
}

fn no_form_hint(alloc: Global, told: &Told<'_, '_>) -> Result<String, Memory>
    ensures { IfOk result (λ text. string_bytes text ≡ no_form_hint (seen told.now)) }
{
    if has_key(told.keys, "constant_param") {
        word(
            alloc,
            "fill in the template first: \"constant_param\" stands for a number",
        )
    } else if has_key(told.keys, "time_param") {
        word(
            alloc,
            "fill in the template first: \"time_param\" stands for a time",
        )
    } else if is_of_contracts(told.sort) && has_key(told.keys, "contract") {
        word(alloc, "take out what stands behind \"contract\"")
    } else if is_of_numbers(told.sort) && is_digits(told.token) {
        word(alloc, "a number stands without quotation marks")
    } else {
        meant_text(alloc, told.sort, told.keys)
    }
}

// Of an object of more than 100 keys no form is sought.
fn meant_text(alloc: Global, sort: Sort, keys: &[&str]) -> Result<String, Memory>
    ensures { IfOk result (λ text. string_bytes text ≡ sought_text sort (sought (map (λ key. key.now) keys.now))) }
{
    sought_text(alloc, sort, sought(keys))
}

/// The keys by which a form is sought.
pub(crate) fn sought<'k, 'a>(keys: &'k [&'a str]) -> &'k [&'a str]
    ensures { map (λ key. key.now) result.now ≡ sought (map (λ key. key.now) keys.now) }
{
    if keys.len() <= MOST_SOUGHT { keys } else { &[] }
}

fn sought_text(alloc: Global, sort: Sort, keys: &[&str]) -> Result<String, Memory>
    ensures { IfOk result (λ text. string_bytes text ≡ sought_text sort (map (λ key. key.now) keys.now)) }
{
    match meant_form(keys, sort) {
        Some(form) => lacking_text(alloc, sort, form, lacking_key(keys, form)),
        None => word(alloc, sort_hint(sort)),
    }
}

fn lacking_text(
    alloc: Global,
    sort: Sort,
    form: Form,
    field: Option<(Key, Sort)>,
) -> Result<String, Memory>
    ensures { IfOk result (λ text. string_bytes text ≡ lacking_text sort form field) }
{
    match field {
        Some((key, _)) => wants_text(alloc, form_text(form), key_word(key)),
        None => word(alloc, sort_hint(sort)),
    }
}

fn wants_text(alloc: Global, form: &str, key: &str) -> Result<String, Memory>
    ensures { IfOk result (λ text. string_bytes text ≡ form.now ++ (codes " wants \"" ++ (key.now ++ codes "\""))) }
{
    format!(in alloc; "{form} wants \"{key}\"")
}

/// The key that may have been meant for the one that lacks.
pub(crate) fn near_key<'k, 'a>(sort: Sort, keys: &'k [&'a str]) -> Option<&'a str>
    ensures { option_map (λ key. key.now) result ≡ spec.near_key sort (sought (map (λ key. key.now) keys.now)) }
{
    near_sought(sort, sought(keys))
}

fn near_sought<'k, 'a>(sort: Sort, keys: &'k [&'a str]) -> Option<&'a str>
    ensures { option_map (λ key. key.now) result ≡ spec.near_key sort (map (λ key. key.now) keys.now) }
{
    match meant_form(keys, sort) {
        Some(form) => near_of(form, keys, lacking_key(keys, form)),
        None => None,
    }
}

fn near_of<'k, 'a>(form: Form, keys: &'k [&'a str], field: Option<(Key, Sort)>) -> Option<&'a str>
    ensures { option_map (λ key. key.now) result ≡ spec.near_of (map (λ key. key.now) keys.now) form field }
{
    match field {
        Some((key, _)) => nearest_key(form, key, keys),
        None => None,
    }
}

// ---- tests

fn has_key(keys: &[&str], word: &str) -> bool
    ensures { result ≡ is_there (map (λ key. key.now) keys.now) word.now }
{
    for key in keys {
        let same = *key == word;
        if same {
            return true;
        }
    }
    false
}

fn is_of_contracts(sort: Sort) -> bool
    ensures { result ≡ is_of_contracts sort }
{
    match sort {
        Sort::Contract => true,
        _ => false,
    }
}

fn is_of_numbers(sort: Sort) -> bool
    ensures { result ≡ is_of_numbers sort }
{
    match sort {
        Sort::Value | Sort::Whole | Sort::Time | Sort::Amount(Numbers::Whole) => true,
        Sort::OfScenario(ScenarioSort::Count | ScenarioSort::Workers | ScenarioSort::Calls) => true,
        _ => false,
    }
}

fn is_digits(token: Token<'_>) -> bool
    ensures { result ≡ is_digits (token_of token.entry) }
{
    match token {
        Token::String(text) => are_digits(text.as_bytes()),
        _ => false,
    }
}

fn are_digits(bytes: &[u8]) -> bool
    ensures { result ≡ are_digits bytes.now }
{
    match bytes {
        [] => false,
        _ => all_digits(bytes),
    }
}

fn all_digits(bytes: &[u8]) -> bool
    ensures { result ≡ list_all is_digit bytes.now }
{
    for byte in bytes {
        let wrong = is_no_digit(*byte);
        if wrong {
            return false;
        }
    }
    true
}

fn is_no_digit(byte: u8) -> bool
    ensures { result ≡ not (is_digit byte) }
{
    byte < 48 || byte > 57
}

// ---- hexadecimal digits

fn hex_hint(alloc: Global, token: Token<'_>) -> Result<String, Memory>
    ensures { IfOk result (λ text. string_bytes text ≡ hex_hint (token_of token.entry)) }
{
    match token {
        Token::String(text) => letter_text(alloc, text, first_bad_letter(text)),
        _ => Ok(String::new(alloc)),
    }
}

fn letter_text(alloc: Global, text: &str, letter: Option<char>) -> Result<String, Memory>
    ensures { IfOk result (λ line. string_bytes line ≡ letter_text text.now letter) }
{
    match letter {
        Some(c) => bad_letter_text(alloc, c),
        None => count_text(alloc, text.len()),
    }
}

fn bad_letter_text(alloc: Global, letter: char) -> Result<String, Memory>
    ensures { IfOk result (λ line. string_bytes line ≡ codes "the first letter that is none is " ++ text_shown (encode_utf8 letter)) }
{
    let mut text = String::new(alloc);
    text.push(letter)?;
    let shown = text_shown(alloc, text.as_str())?;
    format!(in alloc; "the first letter that is none is {shown}")
}

fn count_text(alloc: Global, count: usize) -> Result<String, Memory>
    ensures { IfOk result (λ line. string_bytes line ≡ codes "they come in pairs, and here are " ++ decimal count) }
{
    format!(in alloc; "they come in pairs, and here are {count}")
}

fn first_bad_letter(text: &str) -> Option<char>
    ensures { result ≡ find (λ c. not (is_hex c)) (chars text.now) }
{
    for c in text.chars() {
        let wrong = is_no_hex(c);
        if wrong {
            return Some(c);
        }
    }
    None
}

fn is_no_hex(c: char) -> bool
    ensures { result ≡ not (is_hex c) }
{
    !is_hex(c)
}

fn is_hex(c: char) -> bool
    ensures { result ≡ is_hex c }
{
    is_among(48, 57, c as u32) || is_among(65, 70, c as u32) || is_among(97, 102, c as u32)
}

fn is_among(first: u32, last: u32, c: u32) -> bool
    ensures { result ≡ is_among first last c }
{
    first <= c && c <= last
}
