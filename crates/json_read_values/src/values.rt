//! Values and observations as JSON values.
ghost use Rattle.contract.specs.Collections.Answers.{Aside};
ghost use Rattle.json_read_names.specs.Parts.{reading_at};
ghost use Rattle.json_read_values.specs.ReadsValue as reads;
ghost use Rattle.json_read_values.specs.ReadsSupport.{values_at, observations_at};

use contract::{Boxed, Observation, Value};
use json_read_names::{
    JsonFault, ObservationForm, ValueForm, beside, choice_id_from_json, member, observation_form,
    party_from_json, read_text, read_whole, token_from_json, value_form,
};
use json_tree::JsonValue;
use std::alloc::Global;

/// The value that a JSON value stands for (Marlowe specification version 3, "Values and observations").
/// A constant is a whole number from -2^63 to 2^64 - 1.
#[cycle(value_from_json)]
#[tactic(auto, using(crate::proofs::ValueSteps::value_steps), unfolding(crate::specs::ReadsValue::value_by))]
pub fn value_from_json<J: JsonValue>(alloc: Global, json: &J) -> Result<Value, JsonFault>
    ensures reading { Aside JsonFault.Memory result (reads.value (J.json json.now)) }
{
    match value_form(json) {
        ValueForm::Constant => Ok(Value::Constant(read_whole(json)?)),
        ValueForm::TimeIntervalStart => Ok(Value::TimeIntervalStart),
        ValueForm::TimeIntervalEnd => Ok(Value::TimeIntervalEnd),
        ValueForm::AvailableMoney => {
            let token = token_from_json(alloc, member(json, "amount_of_token")?)?;
            let account = party_from_json(alloc, member(json, "in_account")?)?;
            Ok(Value::AvailableMoney(account, token))
        }
        ValueForm::NegValue => Ok(Value::NegValue(value_at(alloc, json, "negate")?)),
        ValueForm::AddValue => {
            let (first, second) = values_at(alloc, json, "add", "and")?;
            Ok(Value::AddValue(first, second))
        }
        ValueForm::SubValue => {
            let (first, second) = values_at(alloc, json, "value", "minus")?;
            Ok(Value::SubValue(first, second))
        }
        ValueForm::MulValue => {
            let (first, second) = values_at(alloc, json, "multiply", "times")?;
            Ok(Value::MulValue(first, second))
        }
        ValueForm::DivValue => {
            let (first, second) = values_at(alloc, json, "divide", "by")?;
            Ok(Value::DivValue(first, second))
        }
        ValueForm::ChoiceValue => {
            let id = choice_id_from_json(alloc, member(json, "value_of_choice")?)?;
            Ok(Value::ChoiceValue(id))
        }
        ValueForm::UseValue => Ok(Value::UseValue(read_text(alloc, member(json, "use_value")?)?)),
        ValueForm::Cond => {
            let holds = observation_at(alloc, json, "if")?;
            let (holds, branches) = beside(holds, values_at(alloc, json, "then", "else"))?;
            let (then, otherwise) = branches;
            Ok(Value::Cond(holds, then, otherwise))
        }
        ValueForm::Nothing => Err(JsonFault::NoForm),
    }
}

/// The observation that a JSON value stands for (Marlowe specification version 3, "Values and
/// observations").
#[cycle(value_from_json)]
#[tactic(auto, using(crate::proofs::ValueSteps::value_steps), unfolding(crate::specs::ReadsValue::observation_by))]
pub fn observation_from_json<J: JsonValue>(
    alloc: Global,
    json: &J,
) -> Result<Observation, JsonFault>
    ensures reading { Aside JsonFault.Memory result (reads.observation (J.json json.now)) }
{
    match observation_form(json) {
        ObservationForm::TrueObs => Ok(Observation::TrueObs),
        ObservationForm::FalseObs => Ok(Observation::FalseObs),
        ObservationForm::AndObs => {
            let (first, second) = observations_at(alloc, json, "both", "and")?;
            Ok(Observation::AndObs(first, second))
        }
        ObservationForm::OrObs => {
            let (first, second) = observations_at(alloc, json, "either", "or")?;
            Ok(Observation::OrObs(first, second))
        }
        ObservationForm::NotObs => Ok(Observation::NotObs(observation_at(alloc, json, "not")?)),
        ObservationForm::ChoseSomething => {
            let id = choice_id_from_json(alloc, member(json, "chose_something_for")?)?;
            Ok(Observation::ChoseSomething(id))
        }
        ObservationForm::ValueGE => {
            let (first, second) = values_at(alloc, json, "value", "ge_than")?;
            Ok(Observation::ValueGE(first, second))
        }
        ObservationForm::ValueGT => {
            let (first, second) = values_at(alloc, json, "value", "gt")?;
            Ok(Observation::ValueGT(first, second))
        }
        ObservationForm::ValueLT => {
            let (first, second) = values_at(alloc, json, "value", "lt")?;
            Ok(Observation::ValueLT(first, second))
        }
        ObservationForm::ValueLE => {
            let (first, second) = values_at(alloc, json, "value", "le_than")?;
            Ok(Observation::ValueLE(first, second))
        }
        ObservationForm::ValueEQ => {
            let (first, second) = values_at(alloc, json, "value", "equal_to")?;
            Ok(Observation::ValueEQ(first, second))
        }
        ObservationForm::Nothing => Err(JsonFault::NoForm),
    }
}

// The value that the member at a key stands for.
#[cycle(value_from_json)]
fn value_at<J: JsonValue>(alloc: Global, json: &J, key: &str) -> Result<Boxed<Value>, JsonFault>
    ensures { Aside JsonFault.Memory result (reading_at reads.value (J.json json.now) key.now) }
{
    let value = value_from_json(alloc, member(json, key)?)?;
    Ok(Boxed::new(alloc, value)?)
}

// The observation that the member at a key stands for.
#[cycle(value_from_json)]
fn observation_at<J: JsonValue>(
    alloc: Global,
    json: &J,
    key: &str,
) -> Result<Boxed<Observation>, JsonFault>
    ensures { Aside JsonFault.Memory result (reading_at reads.observation (J.json json.now) key.now) }
{
    let observation = observation_from_json(alloc, member(json, key)?)?;
    Ok(Boxed::new(alloc, observation)?)
}

// The two values that the members at two keys stand for, the first before the second.
#[cycle(value_from_json)]
fn values_at<J: JsonValue>(
    alloc: Global,
    json: &J,
    a: &str,
    b: &str,
) -> Result<(Boxed<Value>, Boxed<Value>), JsonFault>
    ensures { Aside JsonFault.Memory result (values_at (J.json json.now) a.now b.now) }
{
    let first = value_at(alloc, json, a)?;
    beside(first, value_at(alloc, json, b))
}

// The two observations that the members at two keys stand for, the first before the second.
#[cycle(value_from_json)]
fn observations_at<J: JsonValue>(
    alloc: Global,
    json: &J,
    a: &str,
    b: &str,
) -> Result<(Boxed<Observation>, Boxed<Observation>), JsonFault>
    ensures { Aside JsonFault.Memory result (observations_at (J.json json.now) a.now b.now) }
{
    let first = observation_at(alloc, json, a)?;
    beside(first, observation_at(alloc, json, b))
}
