//! The walk over the tree of a text, which counts the tokens that it passes.
ghost use Rattle.std.specs.Prelude.{◌≡◌, ◌+◌, [], ◌∷◌, ◌++◌, drop, IfOk, OnOk, map, take};
ghost use Rattle.json.specs.Value.{items_view, members_view, value_view};
ghost use Rattle.unread_keys.specs.Sorts.{form_of, member_field};
ghost use Rattle.unread_keys.specs.Unread.{inside, inside_or, items_notes, keys_of, members_notes, note_of, notes};
ghost use Rattle.unread_keys.specs.UnreadSupport.{Gains};

use crate::sorts::{form_of, item_sort, member_field};
use crate::unread::{Step, Unread, Why};
use json::Value;
use json_forms::{Form, Key, Sort};
use names::collections::Memory;
use std::alloc::Global;

// What was found so far, and the way to where the walk is.
#[derive(Drop)]
pub(crate) struct Found<'a> {
    // So many at most are kept.
    most: usize,
    path: Vec<Step>,
    keys: Vec<Unread<'a>>,
}

/// The members that aren't read of a value, which is read as one of a sort: the first ones, at most `most`, in order.
pub(crate) fn first_unread<'a>(
    alloc: Global,
    json: &Value<'a>,
    sort: Sort,
    most: usize,
) -> Result<Vec<Unread<'a>>, Memory>
    ensures { IfOk result (λ keys. map note_of keys.items ≡ take most (notes [] sort (value_view json.now))) }
{
    let path = Vec::new(alloc);
    let keys = Vec::new(alloc);
    let mut found = Found { most, path, keys };
    let mut passed: usize = 0;
    walk(alloc, &mut passed, &mut found, sort, json)?;
    Ok(kept(found))
}

fn kept<'a>(found: Found<'a>) -> Vec<Unread<'a>>
    ensures { result ≡ found.entry.keys }
{
    let Found { most, path, keys } = found;
    keys
}

// Of a value, before which so many tokens were passed.
#[cycle(walk)]
fn walk<'a>(
    alloc: Global,
    passed: &mut usize,
    found: &mut Found<'a>,
    sort: Sort,
    json: &Value<'a>,
) -> Result<(), Memory>
    ensures { OnOk result (Gains found.old found.new (notes found.old.path.items sort (value_view json.now))) }
{
    match json {
        Value::Array(items) => walk_list(alloc, passed, found, sort, items),
        Value::Object(members) => walk_object(alloc, passed, found, sort, members),
        Value::Null | Value::Bool(_) | Value::Number(_) | Value::String(_) => {
            pass_token(passed);
            Ok(())
        }
    }
}

// Of a list.
#[cycle(walk)]
fn walk_list<'a>(
    alloc: Global,
    passed: &mut usize,
    found: &mut Found<'a>,
    sort: Sort,
    items: &Vec<Value<'a>>,
) -> Result<(), Memory>
    ensures { OnOk result (Gains found.old found.new (items_notes found.old.path.items sort 0 (items_view items.now.items))) }
{
    pass_token(passed);
    walk_items(alloc, passed, found, sort, items.as_slice())?;
    pass_token(passed);
    Ok(())
}

// Of the items of a list.
#[cycle(walk)]
fn walk_items<'a>(
    alloc: Global,
    passed: &mut usize,
    found: &mut Found<'a>,
    sort: Sort,
    items: &[Value<'a>],
) -> Result<(), Memory>
    ensures { OnOk result (Gains found.old found.new (items_notes found.old.path.items sort 0 (items_view items.now))) }
{
    for (index, item) in items.iter().enumerate() {
        walk_item(alloc, passed, found, item_sort(sort, index), index, item)?;
    }
    Ok(())
}

#[cycle(walk)]
fn walk_item<'a>(
    alloc: Global,
    passed: &mut usize,
    found: &mut Found<'a>,
    sort: Option<Sort>,
    index: usize,
    item: &Value<'a>,
) -> Result<(), Memory>
    ensures { OnOk result (Gains found.old found.new
        (inside sort (λ s. notes (found.old.path.items ++ Step.Item index ∷ []) s (value_view item.now)))) }
{
    match sort {
        Some(sort) => walk_inside(alloc, passed, found, sort, Step::Item(index), item),
        None => {
            pass_value(passed, item);
            Ok(())
        }
    }
}

// Of the value behind one step more.
#[cycle(walk)]
#[tactic(auto, using(crate::proofs::GainLemmas::gains_inside))]
fn walk_inside<'a>(
    alloc: Global,
    passed: &mut usize,
    found: &mut Found<'a>,
    sort: Sort,
    step: Step,
    json: &Value<'a>,
) -> Result<(), Memory>
    ensures { OnOk result (Gains found.old found.new (notes (found.old.path.items ++ step ∷ []) sort (value_view json.now))) }
{
    found.path.push(step)?;
    walk(alloc, passed, found, sort, json)?;
    let _ = found.path.pop();
    Ok(())
}

// Of an object.
#[cycle(walk)]
fn walk_object<'a>(
    alloc: Global,
    passed: &mut usize,
    found: &mut Found<'a>,
    sort: Sort,
    members: &Vec<(&'a str, Value<'a>)>,
) -> Result<(), Memory>
    ensures { OnOk result (Gains found.old found.new (members_notes found.old.path.items
        (form_of sort (keys_of (members_view members.now.items))) 0 (members_view members.now.items))) }
{
    let members = members.as_slice();
    pass_token(passed);
    walk_members(alloc, passed, found, form_of(sort, members), members)?;
    pass_token(passed);
    Ok(())
}

// Of the members of an object of a form.
#[cycle(walk)]
fn walk_members<'a>(
    alloc: Global,
    passed: &mut usize,
    found: &mut Found<'a>,
    form: Option<Form>,
    members: &[(&'a str, Value<'a>)],
) -> Result<(), Memory>
    ensures { OnOk result (Gains found.old found.new (members_notes found.old.path.items form 0 (members_view members.now))) }
{
    for (index, member) in members.iter().enumerate() {
        walk_member(
            alloc,
            passed,
            found,
            form,
            index,
            member.0,
            &member.1,
            behind(members, index),
        )?;
    }
    Ok(())
}

// Of a member, behind which these follow. The value comes before them: the walk ends since its depth falls.
#[cycle(walk)]
fn walk_member<'a>(
    alloc: Global,
    passed: &mut usize,
    found: &mut Found<'a>,
    form: Option<Form>,
    index: usize,
    key: &'a str,
    value: &Value<'a>,
    later: &[(&'a str, Value<'a>)],
) -> Result<(), Memory>
    ensures { OnOk result (Gains found.old found.new
        (inside_or (member_field form key.now (map (λ member. member.0.now) later.now)) found.old.path.items index key.now
        (λ field. notes (found.old.path.items ++ Step.Key field.0 ∷ []) field.1 (value_view value.now)))) }
{
    walk_read(
        alloc,
        passed,
        found,
        member_field(form, key, later),
        index,
        key,
        value,
    )
}

// Of a member that is read as this, or isn't.
#[cycle(walk)]
fn walk_read<'a>(
    alloc: Global,
    passed: &mut usize,
    found: &mut Found<'a>,
    read_as: Result<(Key, Sort), Why>,
    index: usize,
    key: &'a str,
    value: &Value<'a>,
) -> Result<(), Memory>
    ensures { OnOk result (Gains found.old found.new (inside_or read_as found.old.path.items index key.now
        (λ field. notes (found.old.path.items ++ Step.Key field.0 ∷ []) field.1 (value_view value.now)))) }
{
    let tokens = *passed;
    pass_token(passed);
    match read_as {
        Ok((key, sort)) => walk_inside(alloc, passed, found, sort, Step::Key(key), value),
        Err(why) => {
            pass_value(passed, value);
            found.put(alloc, index, tokens, key, why)
        }
    }
}

impl<'a> Found<'a> {
    // One that isn't read, where there is room for it.
    fn put(
        &mut self,
        alloc: Global,
        index: usize,
        tokens: usize,
        key: &'a str,
        why: Why,
    ) -> Result<(), Memory>
        ensures { OnOk result (Gains self.old self.new
            (record { path = self.old.path.items; index = index; key = key.now; why = why } ∷ [])) }
    {
        if self.keys.len() >= self.most {
            return Ok(());
        }
        let path = copied(alloc, &self.path)?;
        self.keys.push(Unread {
            path,
            index,
            tokens,
            key,
            why,
        })?;
        Ok(())
    }
}

fn copied(alloc: Global, path: &[Step]) -> Result<Vec<Step>, Memory>
    ensures { IfOk result (λ copy. copy.items ≡ path.now) }
{
    let mut copy = Vec::new(alloc);
    copy.extend_from_slice(path)?;
    Ok(copy)
}

// The members behind the one at an index.
fn behind<'m, 'a>(members: &'m [(&'a str, Value<'a>)], index: usize) -> &'m [(&'a str, Value<'a>)]
    ensures { result.now ≡ drop (index + 1) members.now }
{
    if index < members.len() {
        &members[index + 1..]
    } else {
        &[]
    }
}

// One token is passed.
fn pass_token(passed: &mut usize) {
    *passed = passed.saturating_add(1);
}

// All tokens of a value are passed.
fn pass_value(passed: &mut usize, json: &Value<'_>) {
    *passed = passed.saturating_add(token_count(json));
}

#[cycle(token_count)]
fn token_count(json: &Value<'_>) -> usize {
    match json {
        Value::Array(items) => item_tokens(items.as_slice()),
        Value::Object(members) => member_tokens(members.as_slice()),
        Value::Null | Value::Bool(_) | Value::Number(_) | Value::String(_) => 1,
    }
}

// Those of a list, with its brackets.
#[cycle(token_count)]
fn item_tokens(items: &[Value<'_>]) -> usize {
    let mut count: usize = 2;
    for item in items {
        count = count.saturating_add(token_count(item));
    }
    count
}

// Those of an object, with its brackets and keys.
#[cycle(token_count)]
fn member_tokens(members: &[(&str, Value<'_>)]) -> usize {
    let mut count: usize = 2;
    for member in members {
        count = count
            .saturating_add(1)
            .saturating_add(token_count(&member.1));
    }
    count
}
