//! The files that a scenario names.
ghost use Rattle.std.specs.Prelude.{◌≡◌, ◌++◌, map, IfOk, OnOk, option_map, codes};
ghost use Rattle.json.specs.Value.{items_view, members_view, value_view};
ghost use Rattle.file_parts.specs.Files.{file_path, files_in, if_at, name_of, named_among, named_by, named_if, named_in, named_items, named_list, named_members, path_among, seen};

use crate::parts::tree_of;
use collections::{Memory, Text};
use json::{Scratch, Value};
use std::alloc::Global;

/// A contract of a scenario that is given as a file.
#[derive(Debug, Drop)]
pub struct FileName {
    /// The contract's name in the scenario; empty where it has none.
    pub contract: Text,
    /// The path of its file, as it is written there.
    pub path: Text,
}

/// The contracts of a scenario's text that are given as files, in the order of the text: each object of the member `file` alone, a text, behind
/// the key `contract` of an item of `contracts`. A text whose lists and objects nest deeper than `depth`, or that is no JSON, has none. It takes time
/// linear in the text.
pub fn files_of(alloc: Global, scenario: &str, depth: usize) -> Result<Vec<FileName>, Memory>
    ensures { IfOk result (λ files. map seen files.items ≡ files_in depth scenario.now) }
{
    let mut scratch = Scratch::new(alloc);
    match tree_of(alloc, scenario, &mut scratch, depth)? {
        Some(tree) => named_in(alloc, &tree),
        None => Ok(Vec::new(alloc)),
    }
}

fn named_in(alloc: Global, tree: &Value<'_>) -> Result<Vec<FileName>, Memory>
    ensures { IfOk result (λ files. map seen files.items ≡ named_in (value_view tree.now)) }
{
    let mut files = Vec::new(alloc);
    if let Value::Object(members) = tree {
        put_members(alloc, &mut files, members.as_slice())?;
    }
    Ok(files)
}

fn put_members(
    alloc: Global,
    files: &mut Vec<FileName>,
    members: &[(&str, Value<'_>)],
) -> Result<(), Memory>
    ensures { OnOk result (map seen files.new.items ≡ map seen files.old.items ++ named_members (members_view members.now)) }
{
    for member in members {
        put_member(alloc, files, member.0, &member.1)?;
    }
    Ok(())
}

fn put_member(
    alloc: Global,
    files: &mut Vec<FileName>,
    key: &str,
    value: &Value<'_>,
) -> Result<(), Memory>
    ensures { OnOk result (map seen files.new.items ≡ map seen files.old.items ++ if_at (codes "contracts") key.now (named_list (value_view value.now))) }
{
    if key == "contracts" {
        put_list(alloc, files, value)
    } else {
        Ok(())
    }
}

fn put_list(alloc: Global, files: &mut Vec<FileName>, list: &Value<'_>) -> Result<(), Memory>
    ensures { OnOk result (map seen files.new.items ≡ map seen files.old.items ++ named_list (value_view list.now)) }
{
    match list {
        Value::Array(items) => put_items(alloc, files, items.as_slice()),
        _ => Ok(()),
    }
}

fn put_items(alloc: Global, files: &mut Vec<FileName>, items: &[Value<'_>]) -> Result<(), Memory>
    ensures { OnOk result (map seen files.new.items ≡ map seen files.old.items ++ named_items (items_view items.now)) }
{
    for item in items {
        put_item(alloc, files, item)?;
    }
    Ok(())
}

fn put_item(alloc: Global, files: &mut Vec<FileName>, item: &Value<'_>) -> Result<(), Memory>
    ensures { OnOk result (map seen files.new.items ≡ map seen files.old.items ++ named_by (value_view item.now)) }
{
    match item {
        Value::Object(members) => { put_contracts(alloc, files, name_of(item), members.as_slice()) }
        _ => Ok(()),
    }
}

// A contract's name in the scenario.
fn name_of<'a>(item: &Value<'a>) -> &'a str
    ensures { result.now ≡ name_of (value_view item.now) }
{
    match item.get("name") {
        Some(name) => match name.as_str() {
            Some(name) => name,
            None => "",
        },
        None => "",
    }
}

fn put_contracts(
    alloc: Global,
    files: &mut Vec<FileName>,
    name: &str,
    members: &[(&str, Value<'_>)],
) -> Result<(), Memory>
    ensures { OnOk result (map seen files.new.items ≡ map seen files.old.items ++ named_among name.now (members_view members.now)) }
{
    for member in members {
        put_part(alloc, files, name, member.0, &member.1)?;
    }
    Ok(())
}

fn put_part(
    alloc: Global,
    files: &mut Vec<FileName>,
    name: &str,
    key: &str,
    part: &Value<'_>,
) -> Result<(), Memory>
    ensures { OnOk result (map seen files.new.items
        ≡ map seen files.old.items ++ if_at (codes "contract") key.now (named_if name.now (file_path (value_view part.now)))) }
{
    if key == "contract" {
        put_if(alloc, files, name, file_path(part))
    } else {
        Ok(())
    }
}

fn put_if(
    alloc: Global,
    files: &mut Vec<FileName>,
    name: &str,
    path: Option<&str>,
) -> Result<(), Memory>
    ensures { OnOk result (map seen files.new.items ≡ map seen files.old.items ++ named_if name.now (option_map (λ p. p.now) path.entry)) }
{
    if let Some(path) = path {
        let contract = Text::from_string(String::from_str(alloc, name)?);
        let path = Text::from_string(String::from_str(alloc, path)?);
        files.push(FileName { contract, path })?;
    }
    Ok(())
}

/// The path of a contract that is given as a file.
pub(crate) fn file_path<'a>(contract: &Value<'a>) -> Option<&'a str>
    ensures { option_map (λ p. p.now) result ≡ file_path (value_view contract.now) }
{
    match contract {
        Value::Object(members) => path_among(members.as_slice()),
        _ => None,
    }
}

fn path_among<'a>(members: &[(&'a str, Value<'a>)]) -> Option<&'a str>
    ensures { option_map (λ p. p.now) result ≡ path_among (members_view members.now) }
{
    match members {
        [] => None,
        [only] => {
            if only.0 == "file" {
                only.1.as_str()
            } else {
                None
            }
        }
        [_, _, ..] => None,
    }
}
