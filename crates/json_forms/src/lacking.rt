//! Which key of a form lacks in an object, and how it may have been spelled.
ghost use Rattle.std.specs.Prelude.{◌≡◌, ◌≤◌, not, ◌&&◌, map, count_by, find, option_map, if◌then◌else◌};
ghost use Rattle.std.specs.List.{list_any};
ghost use Rattle.names.specs.Equal.{same_text};
ghost use Rattle.json_forms.specs.Forms.{Field, key_word};
ghost use Rattle.json_forms.specs.Spelling.{one_apart};
ghost use Rattle.json_forms.specs.Lacking.{fuller, fullest, is_free, is_fuller, is_met, is_near, is_of, is_there, lacking, meant, met, nearest};

use crate::form::{Form, fields_of, forms_of};
use crate::key::{Key, key_word};
use crate::sort::Sort;
use crate::spelling::{one_apart, two_apart};

/// The form of a sort that an object with these keys was meant to have: the one of which most keys are there or near, of as many
/// the one that lacks fewest, and of these the first. There is none where no key of any form is there or near.
pub fn meant_form(keys: &[&str], sort: Sort) -> Option<Form>
    ensures { result ≡ meant (map (λ key. key.now) keys.now) sort }
{
    fullest(keys, forms_of(sort))
}

fn fullest(keys: &[&str], forms: &[Form]) -> Option<Form>
    ensures { result ≡ fullest (map (λ key. key.now) keys.now) forms.now }
{
    match forms {
        [] => None,
        [form, rest @ ..] => fuller(keys, *form, fullest(keys, rest)),
    }
}

// Of a form and another the fuller one.
fn fuller(keys: &[&str], form: Form, other: Option<Form>) -> Option<Form>
    ensures { result ≡ fuller (map (λ key. key.now) keys.now) form other }
{
    match other {
        None => {
            if met(keys, form) == 0 {
                None
            } else {
                Some(form)
            }
        }
        Some(other) => {
            if is_fuller(keys, other, form) {
                Some(other)
            } else {
                Some(form)
            }
        }
    }
}

fn is_fuller(keys: &[&str], form: Form, other: Form) -> bool
    ensures { result ≡ is_fuller (map (λ key. key.now) keys.now) form other }
{
    let ours = met(keys, form);
    let theirs = met(keys, other);
    ours > theirs || (theirs == ours && fields_of(form).len() < fields_of(other).len())
}

// How many keys of a form are there or near.
#[tactic(auto, unfolding(crate::specs::Lacking::met))]
fn met(keys: &[&str], form: Form) -> usize
    ensures { result ≡ met (map (λ key. key.now) keys.now) form }
{
    met_among(keys, form, fields_of(form))
}

fn met_among(keys: &[&str], form: Form, fields: &[(Key, Sort)]) -> usize
    ensures { result ≡ count_by (is_met (map (λ key. key.now) keys.now) form) fields.now }
{
    let mut count = 0;
    for field in fields {
        count += as_count(is_met(keys, form, *field));
    }
    count
}

fn as_count(met: bool) -> usize
    ensures value { result ≡ (if met then 1 else 0) }
    ensures small { result ≤ 1 }
{
    if met { 1 } else { 0 }
}

fn is_met(keys: &[&str], form: Form, field: (Key, Sort)) -> bool
    ensures { result ≡ is_met (map (λ key. key.now) keys.now) form field }
{
    is_there(keys, key_word(field.0)) || nearest_key(form, field.0, keys).is_some()
}

/// The first key of a form that isn't one of these, with what its value is read as.
pub fn lacking_key(keys: &[&str], form: Form) -> Option<(Key, Sort)>
    ensures { result ≡ lacking (map (λ key. key.now) keys.now) form }
{
    first_lacking(keys, fields_of(form))
}

fn first_lacking(keys: &[&str], fields: &[(Key, Sort)]) -> Option<(Key, Sort)>
    ensures { result ≡ find (λ (f : Field). not (is_there (map (λ key. key.now) keys.now) (key_word f.0))) fields.now }
{
    for field in fields {
        let there = is_there(keys, key_word(field.0));
        if !there {
            return Some(*field);
        }
    }
    None
}

/// Of these keys the one that is nearest in spelling to a key of a form: the first that is one letter apart, or else, of a word of
/// at least four letters, the first that is two apart. Words of the form itself and keys of more than 40 bytes are passed over.
#[tactic(auto, unfolding(crate::specs::Lacking::nearest))]
pub fn nearest_key<'k>(form: Form, key: Key, keys: &[&'k str]) -> Option<&'k str>
    ensures { option_map (λ found. found.now) result ≡ nearest form (key_word key) (map (λ key. key.now) keys.now) }
{
    let word = key_word(key);
    match first_one_apart(form, word, keys) {
        Some(found) => Some(found),
        None => first_near(form, word, keys),
    }
}

fn first_one_apart<'k>(form: Form, word: &str, keys: &[&'k str]) -> Option<&'k str>
    ensures { option_map (λ found. found.now) result
        ≡ find (λ key. is_free form key && one_apart word.now key) (map (λ key. key.now) keys.now) }
{
    for key in keys {
        let fits = is_free_and_one_apart(form, word, key);
        if fits {
            return Some(*key);
        }
    }
    None
}

fn first_near<'k>(form: Form, word: &str, keys: &[&'k str]) -> Option<&'k str>
    ensures { option_map (λ found. found.now) result
        ≡ find (λ key. is_free form key && is_near word.now key) (map (λ key. key.now) keys.now) }
{
    for key in keys {
        let fits = is_free_and_near(form, word, key);
        if fits {
            return Some(*key);
        }
    }
    None
}

fn is_free_and_one_apart(form: Form, word: &str, key: &str) -> bool
    ensures { result ≡ (is_free form key.now && one_apart word.now key.now) }
{
    is_free(form, key) && one_apart(word.as_bytes(), key.as_bytes())
}

fn is_free_and_near(form: Form, word: &str, key: &str) -> bool
    ensures { result ≡ (is_free form key.now && is_near word.now key.now) }
{
    is_free(form, key) && is_near(word, key)
}

fn is_near(word: &str, key: &str) -> bool
    ensures { result ≡ is_near word.now key.now }
{
    word.len() >= 4 && two_apart(word.as_bytes(), key.as_bytes())
}

fn is_free(form: Form, key: &str) -> bool
    ensures { result ≡ is_free form key.now }
{
    key.len() <= 40 && !is_of(form, key)
}

// Whether a key is one of a form.
fn is_of(form: Form, key: &str) -> bool
    ensures { result ≡ is_of form key.now }
{
    is_word_among(fields_of(form), key)
}

fn is_word_among(fields: &[(Key, Sort)], key: &str) -> bool
    ensures { result ≡ list_any (λ word. same_text word key.now) (map (λ field. key_word field.0) fields.now) }
{
    for field in fields {
        let same = key_word(field.0) == key;
        if same {
            return true;
        }
    }
    false
}

// Whether a word is one of these keys.
fn is_there(keys: &[&str], word: &str) -> bool
    ensures { result ≡ is_there (map (λ key. key.now) keys.now) word.now }
{
    for key in keys {
        let same = *key == word;
        if same {
            return true;
        }
    }
    false
}
