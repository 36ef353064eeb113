//! A value that isn't read as one of a sort.
ghost use Rattle.std.specs.Prelude.{◌≡◌, IfOk, map, option_map, string_bytes};
ghost use Rattle.json.specs.Reads.{token_of};
ghost use Rattle.json_tree.specs.View.{view};
ghost use Rattle.serde_json.specs.Data.{number as number_data};
ghost use Rattle.serde_json.specs.View.{number_view};
ghost use Rattle.refusal_reasons.specs.ToldParts.Members.{part_members};
ghost use Rattle.refusal_reasons.specs.Explanations.Indexes.{keys_in};
ghost use Rattle.requests.specs.Ids.{SpellsId};
ghost use Rattle.request_reasons.specs.Parts.{BeginsWith, IsToldAt, TellsAny, TellsAt, TellsPart, told_at};
ghost use Rattle.request_reasons.specs.PartsSupport.{place_of};
ghost use Rattle.request_reasons.specs.Scenarios.{TellsScenario};

use contract::Memory;
use json::Token;
use json_tree::{Json, JsonValue};
use refusal_reasons::{Sort, Spot, Stop, Told, first_stop, keys_in, part_members, scenario_stop};
use serde_json::{Number, Value};
use std::alloc::Global;

/// Why what stands at a key isn't read as one of a sort; nothing where nothing is there.
pub(crate) fn told_at_key(
    alloc: Global,
    sort: Sort,
    key: &str,
    body: &Json<'_>,
) -> Result<Vec<u8>, Memory>
    ensures { IfOk result (λ written. TellsAt sort key.now (view body.now) written.items) }
{
    any_told(alloc, sort, body.member(key))
}

/// .. if there is a value.
pub(crate) fn any_told(
    alloc: Global,
    sort: Sort,
    json: Option<&Json<'_>>,
) -> Result<Vec<u8>, Memory>
    ensures { IfOk result (λ written. TellsAny sort (option_map (λ json. view json.now) json.entry) written.items) }
{
    match json {
        Some(json) => part_told(alloc, sort, json),
        None => Ok(Vec::new(alloc)),
    }
}

/// Why a value isn't read as one of a sort; nothing where it is.
pub(crate) fn part_told(alloc: Global, sort: Sort, json: &Json<'_>) -> Result<Vec<u8>, Memory>
    ensures { IfOk result (λ written. TellsPart sort (view json.now) written.items) }
{
    let found = first_stop(alloc, sort, json)?;
    match found {
        Some((stop, part)) => place_told(alloc, &stop, part),
        None => Ok(Vec::new(alloc)),
    }
}

/// Why a value isn't read as a scenario, as members of the object that says that it is refused: the place at which reading stops, what is
/// wanted there and what stands there. There are no bytes where it is read. `Memory` where memory was refused.
pub fn scenario_told(alloc: Global, json: &Json<'_>) -> Result<Vec<u8>, Memory>
    ensures { IfOk result (λ written. TellsScenario (view json.now) written.items) }
{
    let found = scenario_stop(alloc, json)?;
    match found {
        Some((stop, part)) => place_told(alloc, &stop, part),
        None => Ok(Vec::new(alloc)),
    }
}

// What is told of a place.
#[tactic(auto, using(crate::proofs::PartLemmas::number_begins))]
fn place_told(alloc: Global, stop: &Stop, part: &Json<'_>) -> Result<Vec<u8>, Memory>
    ensures { IfOk result (λ written. IsToldAt (place_of stop.now part.now) written.items) }
{
    match part {
        Json::Null => token_told(alloc, stop, part, Token::Null),
        Json::Bool(truth) => token_told(alloc, stop, part, Token::Bool(*truth)),
        Json::Number(number) => {
            let text = number_text(alloc, *number)?;
            token_told(alloc, stop, part, Token::Number(text.as_str()))
        }
        Json::String(text) => token_told(alloc, stop, part, Token::String(*text)),
        Json::Array(_) => token_told(alloc, stop, part, Token::BeginArray),
        Json::Object(_) => token_told(alloc, stop, part, Token::BeginObject),
    }
}

// A text of a number.
fn number_text(alloc: Global, number: Number) -> Result<String, Memory>
    ensures { IfOk result (λ text. SpellsId (number_data (number_view number)) (string_bytes text)) }
{
    let text = Value::Number(number).to_string(alloc)?;
    Ok(text)
}

// .. whose value begins with this token.
#[tactic(auto, using(crate::proofs::PartLemmas::token_told))]
fn token_told(
    alloc: Global,
    stop: &Stop,
    part: &Json<'_>,
    token: Token<'_>,
) -> Result<Vec<u8>, Memory>
    requires { BeginsWith (view part.now) (token_of token) }
    ensures { IfOk result (λ written. IsToldAt (place_of stop.now part.now) written.items) }
{
    members_told(alloc, stop, part, token)
}

// The members.
fn members_told(
    alloc: Global,
    stop: &Stop,
    part: &Json<'_>,
    token: Token<'_>,
) -> Result<Vec<u8>, Memory>
    ensures { IfOk result (λ written.
        written.items ≡ part_members (told_at (place_of stop.now part.now) (token_of token.entry) (keys_in part.now))) }
{
    let keys = keys_in(alloc, part)?;
    let told = Told {
        path: stop.path.as_slice(),
        spot: Spot { line: 1, column: 1 },
        sort: stop.sort,
        fault: stop.fault,
        token,
        keys: keys.as_slice(),
        first: None,
        names: &[],
    };
    part_members(alloc, &told)
}
