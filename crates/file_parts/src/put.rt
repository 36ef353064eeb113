//! Whether a tree is that of a scenario with its files in place.
ghost use Rattle.std.specs.Prelude.{◌≡◌, ℕ, true, Ok, map, codes, IfOk, MatchOption, None, Some, option_and_then};
ghost use Rattle.std.specs.Option.{unwrap_or};
ghost use Rattle.json.specs.Value.{items_view, members_view, value_view};
ghost use Rattle.file_parts.specs.Files.{change_items, change_members, document_within, file_path, put, text_of, tree_at, with_files};
ghost use Rattle.file_parts.specs.FilesSupport.{if_key, put_in_item, put_in_list};

use crate::join::FileText;
use crate::named::file_path;
use crate::parts::tree_of;
use crate::same::same;
use collections::Memory;
use json::{Scratch, Value};
use std::alloc::Global;

/// Whether one tree is the other's with these files in place.
#[tactic(auto, using(crate::proofs::ViewLemmas::scenario_changed))]
pub(crate) fn has_files(
    alloc: Global,
    files: &[FileText<'_>],
    depth: usize,
    old: &Value<'_>,
    new: &Value<'_>,
) -> Result<bool, Memory>
    ensures { result ≡ Ok true → value_view new.now ≡ with_files (tree_at depth (map text_of files.now)) (value_view old.now) }
{
    match (old, new) {
        (Value::Object(xs), Value::Object(ys)) => {
            members_have(alloc, files, depth, xs.as_slice(), ys.as_slice())
        }
        (Value::Object(_), _) => Ok(false),
        _ => Ok(same(old, new)),
    }
}

// Of the members of a scenario.
fn members_have(
    alloc: Global,
    files: &[FileText<'_>],
    depth: usize,
    old: &[(&str, Value<'_>)],
    new: &[(&str, Value<'_>)],
) -> Result<bool, Memory>
    ensures { result ≡ Ok true → members_view new.now
        ≡ change_members (codes "contracts") (put_in_list (tree_at depth (map text_of files.now))) (members_view old.now) }
{
    if old.len() != new.len() {
        return Ok(false);
    }
    for (index, member) in old.iter().enumerate() {
        let other = &new[index];
        let same_key = member.0 == other.0;
        if !same_key {
            return Ok(false);
        }
        let has = member_has(alloc, files, depth, member.0, &member.1, &other.1)?;
        if !has {
            return Ok(false);
        }
    }
    Ok(true)
}

// Of what is behind a key of a scenario.
fn member_has(
    alloc: Global,
    files: &[FileText<'_>],
    depth: usize,
    key: &str,
    old: &Value<'_>,
    new: &Value<'_>,
) -> Result<bool, Memory>
    ensures { result ≡ Ok true → value_view new.now
        ≡ if_key (codes "contracts") (put_in_list (tree_at depth (map text_of files.now))) key.now (value_view old.now) }
{
    if key == "contracts" {
        list_has(alloc, files, depth, old, new)
    } else {
        Ok(same(old, new))
    }
}

// Of the list of contracts.
fn list_has(
    alloc: Global,
    files: &[FileText<'_>],
    depth: usize,
    old: &Value<'_>,
    new: &Value<'_>,
) -> Result<bool, Memory>
    ensures { result ≡ Ok true → value_view new.now ≡ put_in_list (tree_at depth (map text_of files.now)) (value_view old.now) }
{
    match (old, new) {
        (Value::Array(xs), Value::Array(ys)) => {
            items_have(alloc, files, depth, xs.as_slice(), ys.as_slice())
        }
        (Value::Array(_), _) => Ok(false),
        _ => Ok(same(old, new)),
    }
}

fn items_have(
    alloc: Global,
    files: &[FileText<'_>],
    depth: usize,
    old: &[Value<'_>],
    new: &[Value<'_>],
) -> Result<bool, Memory>
    ensures { result ≡ Ok true → items_view new.now
        ≡ change_items (put_in_item (tree_at depth (map text_of files.now))) (items_view old.now) }
{
    if old.len() != new.len() {
        return Ok(false);
    }
    for (index, item) in old.iter().enumerate() {
        let has = item_has(alloc, files, depth, item, &new[index])?;
        if !has {
            return Ok(false);
        }
    }
    Ok(true)
}

// Of a named contract.
#[tactic(auto, using(crate::proofs::ViewLemmas::item_changed))]
fn item_has(
    alloc: Global,
    files: &[FileText<'_>],
    depth: usize,
    old: &Value<'_>,
    new: &Value<'_>,
) -> Result<bool, Memory>
    ensures { result ≡ Ok true → value_view new.now ≡ put_in_item (tree_at depth (map text_of files.now)) (value_view old.now) }
{
    match (old, new) {
        (Value::Object(xs), Value::Object(ys)) => {
            parts_have(alloc, files, depth, xs.as_slice(), ys.as_slice())
        }
        (Value::Object(_), _) => Ok(false),
        _ => Ok(same(old, new)),
    }
}

fn parts_have(
    alloc: Global,
    files: &[FileText<'_>],
    depth: usize,
    old: &[(&str, Value<'_>)],
    new: &[(&str, Value<'_>)],
) -> Result<bool, Memory>
    ensures { result ≡ Ok true → members_view new.now
        ≡ change_members (codes "contract") (put (tree_at depth (map text_of files.now))) (members_view old.now) }
{
    if old.len() != new.len() {
        return Ok(false);
    }
    for (index, member) in old.iter().enumerate() {
        let other = &new[index];
        let same_key = member.0 == other.0;
        if !same_key {
            return Ok(false);
        }
        let has = part_has(alloc, files, depth, member.0, &member.1, &other.1)?;
        if !has {
            return Ok(false);
        }
    }
    Ok(true)
}

// Of what is behind a key of a named contract.
fn part_has(
    alloc: Global,
    files: &[FileText<'_>],
    depth: usize,
    key: &str,
    old: &Value<'_>,
    new: &Value<'_>,
) -> Result<bool, Memory>
    ensures { result ≡ Ok true → value_view new.now
        ≡ if_key (codes "contract") (put (tree_at depth (map text_of files.now))) key.now (value_view old.now) }
{
    if key == "contract" {
        is_put(alloc, files, depth, old, new)
    } else {
        Ok(same(old, new))
    }
}

// Whether this is the tree of a contract's file, or the contract itself where it is given as none.
fn is_put(
    alloc: Global,
    files: &[FileText<'_>],
    depth: usize,
    old: &Value<'_>,
    new: &Value<'_>,
) -> Result<bool, Memory>
    ensures { result ≡ Ok true → value_view new.now ≡ put (tree_at depth (map text_of files.now)) (value_view old.now) }
{
    match named_text(files, old) {
        Some(text) => is_tree_of(alloc, text, depth, old, new),
        None => Ok(same(old, new)),
    }
}

// Whether this is the tree of a text, or another tree where the text has none.
fn is_tree_of(
    alloc: Global,
    text: &str,
    depth: usize,
    old: &Value<'_>,
    new: &Value<'_>,
) -> Result<bool, Memory>
    ensures { result ≡ Ok true → value_view new.now ≡ unwrap_or (document_within depth text.now) (value_view old.now) }
{
    let mut scratch = Scratch::new(alloc);
    match tree_of(alloc, text, &mut scratch, depth)? {
        Some(tree) => Ok(same(&tree, new)),
        None => Ok(same(old, new)),
    }
}

// The text of the file that a contract is given as.
fn named_text<'f>(files: &[FileText<'f>], contract: &Value<'_>) -> Option<&'f str>
    ensures { MatchOption result ((depth : ℕ) → option_and_then (tree_at depth (map text_of files.now)) (file_path (value_view contract.now)) ≡ None)
        (λ text. (depth : ℕ) → option_and_then (tree_at depth (map text_of files.now)) (file_path (value_view contract.now)) ≡ document_within depth text.now) }
{
    match file_path(contract) {
        Some(path) => text_at(files, path),
        None => None,
    }
}

/// The first of these texts that is at a path.
pub(crate) fn text_at<'f>(files: &[FileText<'f>], path: &str) -> Option<&'f str>
    ensures { MatchOption result ((depth : ℕ) → tree_at depth (map text_of files.now) path.now ≡ None)
        (λ text. (depth : ℕ) → tree_at depth (map text_of files.now) path.now ≡ document_within depth text.now) }
{
    for file in files {
        let here = file.path == path;
        if here {
            return Some(file.text);
        }
    }
    None
}
