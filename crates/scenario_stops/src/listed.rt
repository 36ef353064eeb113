//! The names that stand in the lists of a scenario.
ghost use Rattle.std.specs.Prelude.{◌≡◌, IfOk, map, option_and_then, option_map};
ghost use Rattle.serde_json.specs.Find.{as_array, get};
ghost use Rattle.serde_json.specs.View.{items_of};
ghost use Rattle.scenario_stops.specs.Stops.{list_key, name_in, names_in, names_of};

use contract::Memory;
use json_forms::NamedSort;
use json_tree::JsonValue;
use std::alloc::Global;

/// The names of the contracts of a scenario, of its threads or of its plans, in order; what has no name is left out.
pub fn names_in<'j, J: JsonValue>(
    alloc: Global,
    kind: NamedSort,
    json: &'j J,
) -> Result<Vec<&'j str>, Memory>
    ensures { IfOk result (λ names. map (λ name. name.now) names.items ≡ names_in kind (J.json json.now)) }
{
    match items_at(json, list_key(kind)) {
        Some(items) => names_of(alloc, items),
        None => Ok(Vec::new(alloc)),
    }
}

fn list_key(kind: NamedSort) -> &'static str
    ensures { result.now ≡ list_key kind }
{
    match kind {
        NamedSort::Contract => "contracts",
        NamedSort::Thread => "threads",
        NamedSort::Plan => "plans",
    }
}

fn items_at<'j, J: JsonValue>(json: &'j J, key: &str) -> Option<&'j [J]>
    ensures { option_map (λ items. items_of (map J.json items.now)) result ≡ option_and_then as_array (get key.now (J.json json.now)) }
{
    json.member(key)?.items()
}

fn names_of<'j, J: JsonValue>(alloc: Global, items: &'j [J]) -> Result<Vec<&'j str>, Memory>
    ensures { IfOk result (λ names. map (λ name. name.now) names.items ≡ names_of (items_of (map J.json items.now))) }
{
    let mut names = Vec::new(alloc);
    for item in items {
        if let Some(name) = name_in(item) {
            names.push(name)?;
        }
    }
    Ok(names)
}

/// The text at the key of names.
pub(crate) fn name_in<J: JsonValue>(json: &J) -> Option<&str>
    ensures { option_map (λ name. name.now) result ≡ name_in (J.json json.now) }
{
    json.member("name")?.text()
}
