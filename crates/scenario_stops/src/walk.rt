//! The way down to the first part that isn't read.
ghost use Rattle.std.specs.Prelude.{◌≡◌, [], ◌∷◌, None, Some, Ok, IfOk, option_map};
ghost use Rattle.json_forms.specs.declared.sort.Sort.{Sort};
ghost use Rattle.json_forms.specs.Forms.{fields_of};
ghost use Rattle.json_stops.specs.Stops.{place};
ghost use Rattle.json_stops.specs.StopsSupport.{at_itself};
ghost use Rattle.scenario_stops.specs.declared.form.Shape.TheVariants.{ListOf, FormOf};
ghost use Rattle.scenario_stops.specs.Stops.{IsScenarioStop, inside};
ghost use Rattle.scenario_stops.specs.declared.known.Names.{Names};
ghost use Rattle.scenario_stops.specs.StopsSupport.{IsStopFor, IsStopIn, along, own_part, shape_for};

use crate::form::{Shape, shape_in};
use crate::known::Names;
use crate::listed::name_in;
use contract::Memory;
use json_forms::{Form, Key, ScenarioSort, Sort, fields_of, key_word, more_of};
use json_read_names::JsonFault;
use json_stops::{Step, Stop};
use json_tree::JsonValue;
use std::alloc::Global;

/// Where the reading of a JSON value as a scenario stops, and what stands there: the path goes from each value to the first of its
/// parts that isn't read, and each part of the value at its end is read. Where the whole is read there is none. It takes n log n steps.
pub fn first_stop<'j, J: JsonValue>(
    alloc: Global,
    json: &'j J,
) -> Result<Option<(Stop, &'j J)>, Memory>
    ensures { IfOk result (λ found. IsScenarioStop (J.json json.now) (option_map (place J.json) found)) }
{
    let mut names = Names::new(alloc);
    let whole = Sort::OfScenario(ScenarioSort::Scenario);
    match stop_within(alloc, &mut names, whole, json)? {
        Some(found) => joined(found),
        None => Ok(None),
    }
}

// The way from the whole on, as one path.
fn joined<'j, J: JsonValue>(
    found: (Vec<Step>, Stop, &'j J),
) -> Result<Option<(Stop, &'j J)>, Memory>
    ensures { IfOk result (λ stop. option_map (place J.json) stop
        ≡ Some (inside (along J.json found.entry).0 (along J.json found.entry).1)) }
{
    let (outer, stop, part) = found;
    let Stop { path, sort, fault } = stop;
    let mut whole = outer;
    whole.reverse();
    whole.extend_from_slice(path.as_slice())?;
    let path = whole;
    Ok(Some((Stop { path, sort, fault }, part)))
}

// Where reading stops, with the path through the scenario from its end, and the path in what a contract or a state has too.
#[cycle(stop_within)]
fn stop_within<'j, J: JsonValue>(
    alloc: Global,
    names: &mut Names,
    sort: Sort,
    json: &'j J,
) -> Result<Option<(Vec<Step>, Stop, &'j J)>, Memory>
    ensures { IfOk result (λ found. IsStopFor names.old sort (J.json json.now) names.new (option_map (along J.json) found)) }
{
    match own_part(sort) {
        Some(part) => stop_in_part(alloc, names, part, json),
        None => stop_in_shared(alloc, sort, json),
    }
}

fn own_part(sort: Sort) -> Option<ScenarioSort>
    ensures { result ≡ own_part sort }
{
    match sort {
        Sort::OfScenario(part) => Some(part),
        _ => None,
    }
}

// In what a contract or a state has too.
fn stop_in_shared<'j, J: JsonValue>(
    alloc: Global,
    sort: Sort,
    json: &'j J,
) -> Result<Option<(Vec<Step>, Stop, &'j J)>, Memory>
    requires { own_part sort ≡ None }
    ensures { IfOk result (λ found. (names : Names) → IsStopFor names sort (J.json json.now) names (option_map (along J.json) found)) }
{
    match json_stops::first_stop(alloc, sort, json)? {
        Some((stop, part)) => Ok(Some((Vec::new(alloc), stop, part))),
        None => Ok(None),
    }
}

// In what a scenario alone has.
#[cycle(stop_within)]
fn stop_in_part<'j, J: JsonValue>(
    alloc: Global,
    names: &mut Names,
    part: ScenarioSort,
    json: &'j J,
) -> Result<Option<(Vec<Step>, Stop, &'j J)>, Memory>
    ensures { IfOk result (λ found.
        IsStopFor names.old (Sort.OfScenario part) (J.json json.now) names.new (option_map (along J.json) found)) }
{
    names.begin(alloc, part);
    match stop_in_shape(alloc, names, part, json)? {
        Some(found) => Ok(Some(found)),
        None => {
            names.keep(alloc, part, name_in(json))?;
            Ok(None)
        }
    }
}

#[cycle(stop_within)]
fn stop_in_shape<'j, J: JsonValue>(
    alloc: Global,
    names: &mut Names,
    part: ScenarioSort,
    json: &'j J,
) -> Result<Option<(Vec<Step>, Stop, &'j J)>, Memory>
    ensures { IfOk result (λ found. IsStopIn names.old part (J.json json.now) names.new (option_map (along J.json) found)) }
{
    match shape_in(names, part, json) {
        Ok(Shape::Single) => Ok(None),
        Ok(Shape::ListOf(inner)) => stop_in_list(alloc, names, part, json, inner),
        Ok(Shape::FormOf(form)) => {
            stop_in_fields(alloc, names, part, json, form, fields_of(form))
        }
        Err(fault) => Ok(Some(stop_here(alloc, part, json, fault))),
    }
}

// Of the values behind keys.
#[cycle(stop_within)]
#[tactic(auto, using(json_read_names::proofs::DepthLaws::deeper))]
fn stop_in_fields<'j, J: JsonValue>(
    alloc: Global,
    names: &mut Names,
    part: ScenarioSort,
    json: &'j J,
    form: Form,
    fields: &[(Key, Sort)],
) -> Result<Option<(Vec<Step>, Stop, &'j J)>, Memory>
    requires shape { shape_for names.old part (J.json json.now) ≡ Ok (FormOf form) }
    requires fields { fields.now ≡ fields_of form }
    ensures { IfOk result (λ found. IsStopIn names.old part (J.json json.now) names.new (option_map (along J.json) found)) }
{
    for field in fields {
        let (key, sort) = *field;
        let Some(value) = json.member(key_word(key)) else {
            return Ok(Some(stop_here(alloc, part, json, JsonFault::NoForm)));
        };
        if let Some(found) = stop_within(alloc, names, sort, value)? {
            return behind(found, Step::Key(key));
        }
    }
    let Some((key, sort)) = more_of(form) else {
        return Ok(None);
    };
    let Some(value) = json.member(key_word(key)) else {
        return Ok(None);
    };
    match stop_within(alloc, names, sort, value)? {
        Some(found) => behind(found, Step::Key(key)),
        None => Ok(None),
    }
}

// Of the items of a list.
#[cycle(stop_within)]
#[tactic(auto, using(json_read_names::proofs::DepthLaws::item_deeper))]
fn stop_in_list<'j, J: JsonValue>(
    alloc: Global,
    names: &mut Names,
    part: ScenarioSort,
    json: &'j J,
    inner: Sort,
) -> Result<Option<(Vec<Step>, Stop, &'j J)>, Memory>
    requires { shape_for names.old part (J.json json.now) ≡ Ok (ListOf inner) }
    ensures { IfOk result (λ found. IsStopIn names.old part (J.json json.now) names.new (option_map (along J.json) found)) }
{
    let Some(items) = json.items() else {
        return Ok(Some(stop_here(alloc, part, json, JsonFault::NoForm)));
    };
    for (index, item) in items.iter().enumerate() {
        if let Some(found) = stop_within(alloc, names, inner, item)? {
            return behind(found, Step::Item(index));
        }
    }
    Ok(None)
}

// At a value itself.
fn stop_here<'j, J: JsonValue>(
    alloc: Global,
    part: ScenarioSort,
    json: &'j J,
    fault: JsonFault,
) -> (Vec<Step>, Stop, &'j J)
    ensures { along J.json result ≡ ([], at_itself (Sort.OfScenario part) (J.json json.now) fault) }
{
    let path = Vec::new(alloc);
    let sort = Sort::OfScenario(part);
    (Vec::new(alloc), Stop { path, sort, fault }, json)
}

// One step further up.
fn behind<'j, J: JsonValue>(
    found: (Vec<Step>, Stop, &'j J),
    step: Step,
) -> Result<Option<(Vec<Step>, Stop, &'j J)>, Memory>
    ensures { IfOk result (λ up. option_map (along J.json) up
        ≡ Some (step ∷ (along J.json found.entry).0, (along J.json found.entry).1)) }
{
    let (outer, stop, part) = found;
    let mut outer = outer;
    outer.push(step)?;
    Ok(Some((outer, stop, part)))
}
