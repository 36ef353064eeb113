//! The way down to the first part that isn't read.
ghost use Rattle.std.specs.Prelude.{◌≡◌, ◌≢◌, Some, None, Ok, IfOk, option_map};
ghost use Rattle.json_stops.specs.declared.fields.Shape.TheVariants.{Itself, ListOf, PairOf};
ghost use Rattle.json_stops.specs.FormsRead as read;
ghost use Rattle.json_stops.specs.Stops.{IsStop, place};
ghost use Rattle.json_stops.specs.StopsSupport.{at_itself, place_back, under};

use crate::fields::{Shape, fields_read, shape_of};
use crate::repeats::{earlier, repeat_in};
use crate::stop::{Step, Stop};
use contract::Memory;
use json_forms::{Key, Sort, key_word};
use json_read_names::JsonFault;
use json_tree::JsonValue;
use std::alloc::{AllocError, Global};

/// Where the reading of a JSON value as one of a sort stops, and what stands there: the path goes from each value to the first of
/// its parts that isn't read, and each part of the value at its end is read. Where the whole is read there is none.
pub fn first_stop<'j, J: JsonValue>(
    alloc: Global,
    sort: Sort,
    json: &'j J,
) -> Result<Option<(Stop, &'j J)>, Memory>
    ensures { IfOk result (λ found. IsStop sort (J.json json.now) (option_map (place J.json) found)) }
{
    match stop_within(alloc, sort, json)? {
        Some(found) => Ok(Some(turned(found))),
        None => Ok(None),
    }
}

// The same, with the path from the whole.
fn turned<'j, J: JsonValue>(found: (Stop, &'j J)) -> (Stop, &'j J)
    ensures { place J.json result ≡ place_back J.json found.entry }
{
    let (stop, part) = found;
    let Stop { path, sort, fault } = stop;
    let mut path = path;
    path.reverse();
    (Stop { path, sort, fault }, part)
}

// Where reading stops, with the path from its end.
#[cycle(stop_within)]
fn stop_within<'j, J: JsonValue>(
    alloc: Global,
    sort: Sort,
    json: &'j J,
) -> Result<Option<(Stop, &'j J)>, Memory>
    ensures { IfOk result (λ found. IsStop sort (J.json json.now) (option_map (place_back J.json) found)) }
{
    match shape_of(sort) {
        Shape::Itself => stop_in_form(alloc, sort, json),
        Shape::ListOf(inner) => stop_in_list(alloc, sort, json, inner),
        Shape::PairOf(first, second) => stop_in_pair(alloc, sort, json, first, second),
    }
}

// Of the form.
#[cycle(stop_within)]
fn stop_in_form<'j, J: JsonValue>(
    alloc: Global,
    sort: Sort,
    json: &'j J,
) -> Result<Option<(Stop, &'j J)>, Memory>
    requires { read.shape_of sort ≡ Itself }
    ensures { IfOk result (λ found. IsStop sort (J.json json.now) (option_map (place_back J.json) found)) }
{
    match fields_read(alloc, sort, json) {
        Ok(fields) => stop_in_fields(alloc, sort, json, fields),
        Err(fault) => stop_or_memory(alloc, sort, json, fault),
    }
}

// Of the values behind keys.
#[cycle(stop_within)]
#[tactic(auto, using(json_read_names::proofs::DepthLaws::deeper))]
fn stop_in_fields<'j, J: JsonValue>(
    alloc: Global,
    sort: Sort,
    json: &'j J,
    fields: &[(Key, Sort)],
) -> Result<Option<(Stop, &'j J)>, Memory>
    requires no_list { read.shape_of sort ≡ Itself }
    requires fields { read.fields_read sort (J.json json.now) ≡ Ok fields.now }
    ensures { IfOk result (λ found. IsStop sort (J.json json.now) (option_map (place_back J.json) found)) }
{
    for field in fields {
        let (key, part_sort) = *field;
        let Some(part) = json.member(key_word(key)) else {
            return Ok(Some(stop_here(alloc, sort, json, JsonFault::NoForm)));
        };
        if let Some(found) = stop_within(alloc, part_sort, part)? {
            return behind(found, Step::Key(key));
        }
    }
    Ok(None)
}

// Of the items of a list.
#[cycle(stop_within)]
#[tactic(auto, using(json_read_names::proofs::DepthLaws::item_deeper))]
fn stop_in_list<'j, J: JsonValue>(
    alloc: Global,
    sort: Sort,
    json: &'j J,
    inner: Sort,
) -> Result<Option<(Stop, &'j J)>, Memory>
    requires { read.shape_of sort ≡ ListOf inner }
    ensures { IfOk result (λ found. IsStop sort (J.json json.now) (option_map (place_back J.json) found)) }
{
    let Some(items) = json.items() else {
        return Ok(Some(stop_here(alloc, sort, json, JsonFault::NoForm)));
    };
    let repeat = repeat_in(alloc, sort, items)?;
    for (index, item) in items.iter().enumerate() {
        if let Some(found) = stop_within(alloc, inner, item)? {
            return behind(found, Step::Item(index));
        }
        if let Some(first) = earlier(repeat, index) {
            let found = stop_here(alloc, Sort::Repeated(first), item, JsonFault::BadState);
            return behind(found, Step::Item(index));
        }
    }
    Ok(None)
}

// Of the two items of a list of just two.
#[cycle(stop_within)]
#[tactic(auto, using(json_read_names::proofs::DepthLaws::item_deeper))]
fn stop_in_pair<'j, J: JsonValue>(
    alloc: Global,
    sort: Sort,
    json: &'j J,
    first: Sort,
    second: Sort,
) -> Result<Option<(Stop, &'j J)>, Memory>
    requires { read.shape_of sort ≡ PairOf first second }
    ensures { IfOk result (λ found. IsStop sort (J.json json.now) (option_map (place_back J.json) found)) }
{
    let Some(items) = json.items() else {
        return Ok(Some(stop_here(alloc, sort, json, JsonFault::NoForm)));
    };
    if items.len() != 2 {
        return Ok(Some(stop_here(alloc, sort, json, JsonFault::NoForm)));
    }
    if let Some(found) = stop_within(alloc, first, &items[0])? {
        return behind(found, Step::Item(0));
    }
    match stop_within(alloc, second, &items[1])? {
        Some(found) => behind(found, Step::Item(1)),
        None => Ok(None),
    }
}

// At a value itself.
fn stop_here<'j, J: JsonValue>(
    alloc: Global,
    sort: Sort,
    json: &'j J,
    fault: JsonFault,
) -> (Stop, &'j J)
    ensures { place_back J.json result ≡ at_itself sort (J.json json.now) fault }
{
    let path = Vec::new(alloc);
    (Stop { path, sort, fault }, json)
}

// The same, unless the fault is that memory was refused.
fn stop_or_memory<'j, J: JsonValue>(
    alloc: Global,
    sort: Sort,
    json: &'j J,
    fault: JsonFault,
) -> Result<Option<(Stop, &'j J)>, Memory>
    ensures { IfOk result (λ found. (fault ≢ JsonFault.Memory) ×
        (option_map (place_back J.json) found ≡ Some (at_itself sort (J.json json.now) fault))) }
{
    match fault {
        JsonFault::Memory => Err(AllocError),
        _ => Ok(Some(stop_here(alloc, sort, json, fault))),
    }
}

// One step further up.
fn behind<'j, J: JsonValue>(
    found: (Stop, &'j J),
    step: Step,
) -> Result<Option<(Stop, &'j J)>, Memory>
    ensures { IfOk result (λ up. option_map (place_back J.json) up ≡ Some (under step (place_back J.json found.entry))) }
{
    let (stop, part) = found;
    let Stop { path, sort, fault } = stop;
    let mut path = path;
    path.push(step)?;
    Ok(Some((Stop { path, sort, fault }, part)))
}
