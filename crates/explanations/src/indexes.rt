//! The way through a tree.
ghost use Rattle.std.specs.Prelude.{◌≡◌, ◌++◌, None, Some, IfOk, OnOk, map, option_map, slice_get, if◌then◌else◌};
ghost use Rattle.explanations.specs.Indexes as spec;

use json_forms::key_word;
use json_stops::Step;
use json_tree::Json;
use names::collections::Memory;
use std::alloc::Global;

/// The index of each member and each item on a path, as far as it leads. Of a key that stands twice it is the last.
pub(crate) fn indexes_of(
    alloc: Global,
    json: &Json<'_>,
    path: &[Step],
) -> Result<Vec<usize>, Memory>
    ensures { IfOk result (λ indexes. indexes.items ≡ spec.indexes_of path.now json.now) }
{
    let mut indexes = Vec::new(alloc);
    put_indexes(&mut indexes, json, path)?;
    Ok(indexes)
}

fn put_indexes(out: &mut Vec<usize>, json: &Json<'_>, path: &[Step]) -> Result<(), Memory>
    ensures { OnOk result (out.new.items ≡ out.old.items ++ spec.indexes_of path.now json.now) }
{
    match path {
        [] => Ok(()),
        [step, rest @ ..] => match next_part(json, *step) {
            Some((index, part)) => {
                out.push(index)?;
                put_indexes(out, part, rest)
            }
            None => Ok(()),
        },
    }
}

// The member or the item to which a step leads, with its index.
fn next_part<'j, 'a>(json: &'j Json<'a>, step: Step) -> Option<(usize, &'j Json<'a>)>
    ensures { option_map (λ found. (found.0, found.1.now)) result ≡ spec.next_part step json.now }
{
    match step {
        Step::Key(key) => member_at(json, key_word(key)),
        Step::Item(index) => item_at(json, index),
    }
}

fn item_at<'j, 'a>(json: &'j Json<'a>, index: usize) -> Option<(usize, &'j Json<'a>)>
    ensures { option_map (λ found. (found.0, found.1.now)) result ≡ spec.item_by index (spec.opened json.now) }
{
    match json {
        Json::Array(items) => item_of(items.as_slice(), index),
        _ => None,
    }
}

#[tactic(auto, using(crate::proofs::IndexLemmas::item_steps))]
fn item_of<'j, 'a>(items: &'j [Json<'a>], index: usize) -> Option<(usize, &'j Json<'a>)>
    ensures { option_map (λ found. (found.0, found.1.now)) result ≡ spec.with_index index (slice_get items.now index) }
{
    if index < items.len() {
        Some((index, &items[index]))
    } else {
        None
    }
}

fn member_at<'j, 'a>(json: &'j Json<'a>, word: &str) -> Option<(usize, &'j Json<'a>)>
    ensures { option_map (λ found. (found.0, found.1.now)) result ≡ spec.member_by word.now (spec.opened json.now) }
{
    match json {
        Json::Object(members) => last_member(members.as_slice(), word),
        _ => None,
    }
}

fn last_member<'j, 'a>(
    members: &'j [(&'a str, Json<'a>)],
    word: &str,
) -> Option<(usize, &'j Json<'a>)>
    ensures { option_map (λ found. (found.0, found.1.now)) result ≡ spec.last_from word.now 0 members.now None }
{
    let mut found = None;
    for (index, member) in members.iter().enumerate() {
        let same = member.0 == word;
        found = newer(same, (index, &member.1), found);
    }
    found
}

// The later one, where it has the key.
fn newer<'j, 'a>(
    has_key: bool,
    later: (usize, &'j Json<'a>),
    found: Option<(usize, &'j Json<'a>)>,
) -> Option<(usize, &'j Json<'a>)>
    ensures { result ≡ (if has_key then Some later.entry else found.entry) }
{
    if has_key { Some(later) } else { found }
}

/// The keys of an object, in order; of other values there are none.
pub fn keys_in<'a>(alloc: Global, json: &Json<'a>) -> Result<Vec<&'a str>, Memory>
    ensures { IfOk result (λ keys. map (λ key. key.now) keys.items ≡ spec.keys_in json.now) }
{
    match json {
        Json::Object(members) => keys_of(alloc, members.as_slice()),
        _ => Ok(Vec::new(alloc)),
    }
}

fn keys_of<'a>(alloc: Global, members: &[(&'a str, Json<'a>)]) -> Result<Vec<&'a str>, Memory>
    ensures { IfOk result (λ keys. map (λ key. key.now) keys.items ≡ map (λ member. member.0.now) members.now) }
{
    let mut keys = Vec::new(alloc);
    for member in members {
        keys.push(member.0)?;
    }
    Ok(keys)
}
