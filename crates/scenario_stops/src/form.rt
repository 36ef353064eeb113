//! How the parts of a value are found.
ghost use Rattle.std.specs.Prelude.{◌≡◌, ◌&&◌, codes, nat_lt};
ghost use Rattle.json_read_names.specs.Forms.{has_two, has_three};
ghost use Rattle.scenario_stops.specs.Parts.{intent_shape, one_form};
ghost use Rattle.scenario_stops.specs.StopsSupport.{name_shape, new_shape, shape_for};

use crate::known::Names;
use crate::numbers::{calls_shape, count_shape, truth_shape, workers_shape};
use json_forms::{Form, NamedSort, ScenarioSort, Sort};
use json_read_names::{JsonFault, has_three, has_two};
use json_read_scenarios::{IntentForm, intent_form};
use json_tree::JsonValue;

/// How the parts of a value are found that a scenario alone has.
#[derive(Clone, Copy)]
pub(crate) enum Shape {
    // There are none.
    Single,
    // As the items of a list, each of a sort.
    ListOf(Sort),
    // By the keys of a form.
    FormOf(Form),
}

const fn own(part: ScenarioSort) -> Sort
    ensures { result ≡ Sort.OfScenario part }
{
    Sort::OfScenario(part)
}

/// How the parts of a value are found, beside what has these names; or the fault of its own form.
pub(crate) fn shape_in<J: JsonValue>(
    names: &Names,
    part: ScenarioSort,
    json: &J,
) -> Result<Shape, JsonFault>
    ensures { result ≡ shape_for names.now part (J.json json.now) }
{
    match part {
        ScenarioSort::Scenario => one_form(has_scenario_keys(json), Form::Scenario),
        ScenarioSort::Genesis => Ok(Shape::ListOf(own(ScenarioSort::Funds))),
        ScenarioSort::Funds => one_form(has_two(json, "address", "amount"), Form::Funds),
        ScenarioSort::Contracts => Ok(Shape::ListOf(own(ScenarioSort::NamedContract))),
        ScenarioSort::NamedContract => one_form(
            has_three(json, "name", "currency", "contract"),
            Form::NamedContract,
        ),
        ScenarioSort::Threads => Ok(Shape::ListOf(own(ScenarioSort::NamedThread))),
        ScenarioSort::NamedThread => one_form(has_thread_keys(json), Form::NamedThread),
        ScenarioSort::Plans => Ok(Shape::ListOf(own(ScenarioSort::Plan))),
        ScenarioSort::Plan => one_form(names.plan_count() < 63 && has_plan_keys(json), Form::Plan),
        ScenarioSort::PlanKeys => Ok(Shape::ListOf(Sort::Text)),
        ScenarioSort::Intents => Ok(Shape::ListOf(own(ScenarioSort::Intent))),
        ScenarioSort::Intent => intent_shape(intent_form(json)),
        ScenarioSort::Steps => Ok(Shape::ListOf(own(ScenarioSort::OneStep))),
        ScenarioSort::OneStep => Ok(Shape::FormOf(Form::OneStep)),
        ScenarioSort::NewName(kind) => new_shape(names, kind, json),
        ScenarioSort::NameOf(kind) => name_shape(names, kind, json),
        ScenarioSort::Count => count_shape(json),
        ScenarioSort::Workers => workers_shape(json),
        ScenarioSort::Calls => calls_shape(json),
        ScenarioSort::Truth => truth_shape(json),
    }
}

// The only form of a sort, where its keys are there.
#[tactic(auto, unfolding(crate::specs::Parts::one_form))]
fn one_form(is_there: bool, form: Form) -> Result<Shape, JsonFault>
    ensures { result ≡ one_form is_there form }
{
    if is_there {
        Ok(Shape::FormOf(form))
    } else {
        Err(JsonFault::NoForm)
    }
}

fn has_scenario_keys<J: JsonValue>(json: &J) -> bool
    ensures { result ≡ (has_three (codes "tick") (codes "genesis") (codes "contracts") (J.json json.now)
        && has_two (codes "threads") (codes "plans") (J.json json.now)) }
{
    has_three(json, "tick", "genesis", "contracts") && has_two(json, "threads", "plans")
}

fn has_thread_keys<J: JsonValue>(json: &J) -> bool
    ensures { result ≡ (has_three (codes "name") (codes "contract") (codes "by") (J.json json.now)
        && has_two (codes "accounts") (codes "minTime") (J.json json.now)) }
{
    has_three(json, "name", "contract", "by") && has_two(json, "accounts", "minTime")
}

fn has_plan_keys<J: JsonValue>(json: &J) -> bool
    ensures { result ≡ (has_two (codes "name") (codes "keys") (J.json json.now)
        && has_two (codes "change") (codes "intents") (J.json json.now)) }
{
    has_two(json, "name", "keys") && has_two(json, "change", "intents")
}

fn intent_shape(form: IntentForm) -> Result<Shape, JsonFault>
    ensures { result ≡ intent_shape form }
{
    match form {
        IntentForm::Step => Ok(Shape::FormOf(Form::Step)),
        IntentForm::Steps => Ok(Shape::FormOf(Form::Steps)),
        IntentForm::Claim => Ok(Shape::FormOf(Form::Claim)),
        IntentForm::Round => Ok(Shape::FormOf(Form::Round)),
        IntentForm::Advance => Ok(Shape::FormOf(Form::Advance)),
        IntentForm::Nothing => Err(JsonFault::NoForm),
    }
}

// A name that none has.
fn new_shape<J: JsonValue>(names: &Names, kind: NamedSort, json: &J) -> Result<Shape, JsonFault>
    ensures { result ≡ new_shape names.now kind (J.json json.now) }
{
    let Some(name) = json.text() else {
        return Err(JsonFault::NoForm);
    };
    if names.has(kind, name) {
        Err(JsonFault::NoForm)
    } else {
        Ok(Shape::Single)
    }
}

// A name that one has.
fn name_shape<J: JsonValue>(names: &Names, kind: NamedSort, json: &J) -> Result<Shape, JsonFault>
    ensures { result ≡ name_shape names.now kind (J.json json.now) }
{
    let Some(name) = json.text() else {
        return Err(JsonFault::NoForm);
    };
    if names.has(kind, name) {
        Ok(Shape::Single)
    } else {
        Err(JsonFault::NoForm)
    }
}
