//! The lines of a part at which reading stops.
ghost use Rattle.std.specs.Prelude.{◌≡◌, ◌∷◌, ◌++◌, [], Some, IfOk, OnOk, codes, decimal, map, option_map, string_bytes};
ghost use Rattle.json.specs.Reads.{token_of};
ghost use Rattle.text_spots.specs.Shown.{path_shown};
ghost use Rattle.told_parts.specs.Lines.{at_text, bad_state_text, beside, fault_text, first_spot_text, form_wanted_text, hint_line, hint_text, keys_or_token, lines_of, names_line, names_text, near_line, near_sought, no_form_text, path_text, repeated_text, sought, spot_text, stands_text, where_text};
ghost use Rattle.told_parts.specs.Told.{seen};

use crate::hints::{hint_text, near_key};
use crate::part::Told;
use crate::pieces::{
    beside, path_text, put_bytes, put_key, put_keys, put_more_keys, text_shown, token_text,
};
use crate::words::{bare_sort_text, kinds_text, sort_text};
use json::Token;
use json_forms::{Form, ScenarioSort, Sort, forms_of};
use json_read_names::JsonFault;
use json_stops::Step;
use names::collections::Memory;
use std::alloc::Global;
use text_spots::{Spot, put_path_shown};

/// The lines of a part at which reading stops, each behind two blanks: where it is, what is wrong and what stands there; what to do
/// about it; and where a key lacks, the key that may have been meant.
pub fn told_lines(alloc: Global, file: &str, told: &Told<'_, '_>) -> Result<Vec<u8>, Memory>
    ensures { IfOk result (λ lines. lines.items ≡ lines_of file.now (seen told.now)) }
{
    let mut out = Vec::new(alloc);
    put_where(alloc, &mut out, file, told.spot, told.path)?;
    put_fault(alloc, &mut out, told)?;
    put_hint(alloc, &mut out, told)?;
    put_others(alloc, &mut out, told)?;
    Ok(out)
}

fn put_where(
    alloc: Global,
    out: &mut Vec<u8>,
    file: &str,
    spot: Spot,
    path: &[Step],
) -> Result<(), Memory>
    ensures { OnOk result (out.new.items ≡ out.old.items ++ where_text file.now spot path.now) }
{
    put_spot(alloc, out, file, spot)?;
    put_at(alloc, out, path)?;
    put_bytes(out, b": ")
}

/// Puts the file, the line and the column behind a text, with which the lines begin.
pub fn put_spot(alloc: Global, out: &mut Vec<u8>, file: &str, spot: Spot) -> Result<(), Memory>
    ensures { OnOk result (out.new.items ≡ out.old.items ++ spot_text file.now spot) }
{
    let text = spot_text(alloc, file, spot.line, spot.column)?;
    put_bytes(out, text.as_bytes())
}

fn spot_text(alloc: Global, file: &str, line: usize, column: usize) -> Result<String, Memory>
    ensures { IfOk result (λ text. string_bytes text
        ≡ codes "  " ++ (file.now ++ (codes ":" ++ (decimal line ++ (codes ":" ++ decimal column))))) }
{
    format!(in alloc; "  {file}:{line}:{column}")
}

// The way to the part; the whole has none.
fn put_at(alloc: Global, out: &mut Vec<u8>, path: &[Step]) -> Result<(), Memory>
    ensures { OnOk result (out.new.items ≡ out.old.items ++ at_text path.now) }
{
    match path {
        [] => Ok(()),
        _ => put_path(alloc, out, path),
    }
}

fn put_path(alloc: Global, out: &mut Vec<u8>, path: &[Step]) -> Result<(), Memory>
    ensures { OnOk result (out.new.items ≡ out.old.items ++ (codes " at " ++ path_shown (path_text path.now))) }
{
    put_bytes(out, b" at ")?;
    put_cut(alloc, out, path)
}

fn put_cut(alloc: Global, out: &mut Vec<u8>, path: &[Step]) -> Result<(), Memory>
    ensures { OnOk result (out.new.items ≡ out.old.items ++ path_shown (path_text path.now)) }
{
    let text = path_text(alloc, path)?;
    put_path_shown(out, text.as_slice())
}

// What is wrong, and what stands there.
fn put_fault(alloc: Global, out: &mut Vec<u8>, told: &Told<'_, '_>) -> Result<(), Memory>
    ensures { OnOk result (out.new.items ≡ out.old.items ++ fault_text told.now.fault (seen told.now)) }
{
    match told.fault {
        JsonFault::NoForm => put_no_form(alloc, out, told, forms_of(told.sort)),
        JsonFault::NotWhole => put_standing(alloc, out, "no whole number; ", told.token),
        JsonFault::OutOfRange => put_no_sort(alloc, out, told),
        JsonFault::BadHex => put_standing(alloc, out, "no hexadecimal digits; ", told.token),
        JsonFault::Merkleized => put_bytes(out, b"no contract follows, but its hash"),
        JsonFault::BadState => put_bad_state(alloc, out, told),
        JsonFault::NotJson | JsonFault::TooLong | JsonFault::Memory => Ok(()),
    }
}

fn put_bad_state(alloc: Global, out: &mut Vec<u8>, told: &Told<'_, '_>) -> Result<(), Memory>
    ensures { OnOk result (out.new.items ≡ out.old.items ++ bad_state_text told.now.sort (seen told.now)) }
{
    match told.sort {
        Sort::Repeated(index) => put_repeated(alloc, out, told, index),
        _ => put_no_sort(alloc, out, told),
    }
}

fn put_repeated(
    alloc: Global,
    out: &mut Vec<u8>,
    told: &Told<'_, '_>,
    index: usize,
) -> Result<(), Memory>
    ensures { OnOk result (out.new.items ≡ out.old.items ++ repeated_text (seen told.now) index) }
{
    put_bytes(out, b"no second entry for one key; the first stands at ")?;
    put_first(alloc, out, told.first, told.path, index)
}

fn put_first(
    alloc: Global,
    out: &mut Vec<u8>,
    first: Option<Spot>,
    path: &[Step],
    index: usize,
) -> Result<(), Memory>
    ensures { OnOk result (out.new.items ≡ out.old.items ++ (first_spot_text first ++ path_shown (path_text (beside path.now index)))) }
{
    put_first_spot(alloc, out, first)?;
    put_beside(alloc, out, path, index)
}

fn put_first_spot(alloc: Global, out: &mut Vec<u8>, first: Option<Spot>) -> Result<(), Memory>
    ensures { OnOk result (out.new.items ≡ out.old.items ++ first_spot_text first) }
{
    match first {
        Some(spot) => put_spot_alone(alloc, out, spot),
        None => Ok(()),
    }
}

fn put_spot_alone(alloc: Global, out: &mut Vec<u8>, spot: Spot) -> Result<(), Memory>
    ensures { OnOk result (out.new.items ≡ out.old.items ++ first_spot_text (Some spot)) }
{
    let text = spot_alone(alloc, spot.line, spot.column)?;
    put_bytes(out, text.as_bytes())
}

fn spot_alone(alloc: Global, line: usize, column: usize) -> Result<String, Memory>
    ensures { IfOk result (λ text. string_bytes text ≡ decimal line ++ (codes ":" ++ (decimal column ++ codes ", "))) }
{
    format!(in alloc; "{line}:{column}, ")
}

fn put_beside(alloc: Global, out: &mut Vec<u8>, path: &[Step], index: usize) -> Result<(), Memory>
    ensures { OnOk result (out.new.items ≡ out.old.items ++ path_shown (path_text (beside path.now index))) }
{
    let other = beside(alloc, path, index)?;
    put_cut(alloc, out, other.as_slice())
}

fn put_no_form(
    alloc: Global,
    out: &mut Vec<u8>,
    told: &Told<'_, '_>,
    forms: &[Form],
) -> Result<(), Memory>
    ensures { OnOk result (out.new.items ≡ out.old.items ++ no_form_text forms.now (seen told.now)) }
{
    match forms {
        [] => put_no_sort(alloc, out, told),
        _ => put_no_form_of(alloc, out, told),
    }
}

fn put_no_sort(alloc: Global, out: &mut Vec<u8>, told: &Told<'_, '_>) -> Result<(), Memory>
    ensures { OnOk result (out.new.items ≡ out.old.items ++ no_form_text [] (seen told.now)) }
{
    let text = no_sort_text(alloc, bare_sort_text(told.sort), told.token)?;
    put_bytes(out, text.as_bytes())
}

fn no_sort_text(alloc: Global, sort: &str, token: Token<'_>) -> Result<String, Memory>
    ensures { IfOk result (λ text. string_bytes text ≡ codes "no " ++ (sort.now ++ (codes "; " ++ stands_text (token_of token.entry)))) }
{
    let stands = token_text(alloc, token)?;
    no_sort_line(alloc, sort, stands.as_str())
}

fn no_sort_line(alloc: Global, sort: &str, stands: &str) -> Result<String, Memory>
    ensures { IfOk result (λ text. string_bytes text ≡ codes "no " ++ (sort.now ++ (codes "; here stands " ++ stands.now))) }
{
    format!(in alloc; "no {sort}; here stands {stands}")
}

fn put_no_form_of(alloc: Global, out: &mut Vec<u8>, told: &Told<'_, '_>) -> Result<(), Memory>
    ensures { OnOk result (out.new.items ≡ out.old.items ++ form_wanted_text (seen told.now)) }
{
    let head = no_form_head(alloc, sort_text(told.sort))?;
    put_bytes(out, head.as_bytes())?;
    put_keys_or_token(alloc, out, told.token, told.keys)
}

fn no_form_head(alloc: Global, sort: &str) -> Result<String, Memory>
    ensures { IfOk result (λ text. string_bytes text ≡ codes "no form of " ++ (sort.now ++ codes "; ")) }
{
    format!(in alloc; "no form of {sort}; ")
}

fn put_keys_or_token(
    alloc: Global,
    out: &mut Vec<u8>,
    token: Token<'_>,
    keys: &[&str],
) -> Result<(), Memory>
    ensures { OnOk result (out.new.items ≡ out.old.items ++ keys_or_token (token_of token.entry) (map (λ key. key.now) keys.now)) }
{
    match token {
        Token::BeginObject => put_keys(alloc, out, keys),
        Token::EndObject
        | Token::BeginArray
        | Token::EndArray
        | Token::Key(_)
        | Token::String(_)
        | Token::Number(_)
        | Token::Bool(_)
        | Token::Null
        | Token::Bad => put_standing(alloc, out, "", token),
    }
}

fn put_standing(
    alloc: Global,
    out: &mut Vec<u8>,
    what: &str,
    token: Token<'_>,
) -> Result<(), Memory>
    ensures { OnOk result (out.new.items ≡ out.old.items ++ (what.now ++ stands_text (token_of token.entry))) }
{
    let text = standing_text(alloc, what, token)?;
    put_bytes(out, text.as_bytes())
}

fn standing_text(alloc: Global, what: &str, token: Token<'_>) -> Result<String, Memory>
    ensures { IfOk result (λ text. string_bytes text ≡ what.now ++ stands_text (token_of token.entry)) }
{
    let stands = token_text(alloc, token)?;
    standing_line(alloc, what, stands.as_str())
}

fn standing_line(alloc: Global, what: &str, stands: &str) -> Result<String, Memory>
    ensures { IfOk result (λ text. string_bytes text ≡ what.now ++ (codes "here stands " ++ stands.now)) }
{
    format!(in alloc; "{what}here stands {stands}")
}

// What to do about it, on a line of its own.
fn put_hint(alloc: Global, out: &mut Vec<u8>, told: &Told<'_, '_>) -> Result<(), Memory>
    ensures { OnOk result (out.new.items ≡ out.old.items ++ hint_line (hint_text told.now.fault (seen told.now))) }
{
    let hint = hint_text(alloc, told)?;
    let line = hint_line(alloc, hint.as_str())?;
    put_bytes(out, line.as_bytes())
}

fn hint_line(alloc: Global, hint: &str) -> Result<String, Memory>
    ensures { IfOk result (λ line. string_bytes line ≡ hint_line hint.now) }
{
    format!(in alloc; "\n  {hint}\n")
}

// What may have been meant.
fn put_others(alloc: Global, out: &mut Vec<u8>, told: &Told<'_, '_>) -> Result<(), Memory>
    ensures { OnOk result (out.new.items ≡ out.old.items
        ++ (near_sought told.now.sort (sought (seen told.now).keys) ++ names_line told.now.sort (seen told.now).names)) }
{
    put_near(alloc, out, told.sort, told.keys)?;
    put_names(alloc, out, told.sort, told.names)
}

// The names that there are.
fn put_names(alloc: Global, out: &mut Vec<u8>, sort: Sort, names: &[&str]) -> Result<(), Memory>
    ensures { OnOk result (out.new.items ≡ out.old.items ++ names_line sort (map (λ name. name.now) names.now)) }
{
    match sort {
        Sort::OfScenario(ScenarioSort::NameOf(kind)) => {
            put_names_of(alloc, out, kinds_text(kind), names)
        }
        _ => Ok(()),
    }
}

fn put_names_of(alloc: Global, out: &mut Vec<u8>, kinds: &str, names: &[&str]) -> Result<(), Memory>
    ensures { OnOk result (out.new.items ≡ out.old.items ++ names_text kinds.now (map (λ name. name.now) names.now)) }
{
    match names {
        [] => put_no_names(alloc, out, kinds),
        [first, rest @ ..] => put_some_names(alloc, out, kinds, first, rest),
    }
}

fn put_no_names(alloc: Global, out: &mut Vec<u8>, kinds: &str) -> Result<(), Memory>
    ensures { OnOk result (out.new.items ≡ out.old.items ++ names_text kinds.now []) }
{
    let line = format!(in alloc; "  there are no {kinds}\n")?;
    put_bytes(out, line.as_bytes())
}

fn put_some_names(
    alloc: Global,
    out: &mut Vec<u8>,
    kinds: &str,
    first: &str,
    rest: &[&str],
) -> Result<(), Memory>
    ensures { OnOk result (out.new.items ≡ out.old.items ++ names_text kinds.now (first.now ∷ map (λ name. name.now) rest.now)) }
{
    put_names_head(alloc, out, kinds)?;
    put_key(alloc, out, first)?;
    put_more_keys(alloc, out, rest)?;
    put_bytes(out, b"\n")
}

fn put_names_head(alloc: Global, out: &mut Vec<u8>, kinds: &str) -> Result<(), Memory>
    ensures { OnOk result (out.new.items ≡ out.old.items ++ (codes "  the " ++ (kinds.now ++ codes " are "))) }
{
    let head = format!(in alloc; "  the {kinds} are ")?;
    put_bytes(out, head.as_bytes())
}

// The key that may have been meant.
fn put_near(alloc: Global, out: &mut Vec<u8>, sort: Sort, keys: &[&str]) -> Result<(), Memory>
    ensures { OnOk result (out.new.items ≡ out.old.items ++ near_sought sort (sought (map (λ key. key.now) keys.now))) }
{
    put_near_key(alloc, out, near_key(sort, keys))
}

fn put_near_key(alloc: Global, out: &mut Vec<u8>, key: Option<&str>) -> Result<(), Memory>
    ensures { OnOk result (out.new.items ≡ out.old.items ++ near_line (option_map (λ key. key.now) key.entry)) }
{
    match key {
        Some(near) => put_near_line(alloc, out, near),
        None => Ok(()),
    }
}

fn put_near_line(alloc: Global, out: &mut Vec<u8>, key: &str) -> Result<(), Memory>
    ensures { OnOk result (out.new.items ≡ out.old.items ++ near_line (Some key.now)) }
{
    let text = text_shown(alloc, key)?;
    put_bytes(out, b"  nearest to it is ")?;
    put_bytes(out, text.as_bytes())?;
    put_bytes(out, b"\n")
}
