//! Values and observations.
ghost use Rattle.std.specs.Prelude.{◌∷◌};
ghost use Rattle.contract.specs.Tree.{value_tree, available_money, cond_value, observation_tree};
ghost use Rattle.contract_bytes.specs.Numbers.{number_bytes, text_bytes, NumberFits, TextFits};
ghost use Rattle.contract_bytes.specs.Names.{choice_id_bytes, ChoiceIdFits};
ghost use Rattle.contract_bytes.specs.Values.{value_bytes, ValueFits};
ghost use Rattle.contract_bytes.specs.WritingSupport.{Spells, SpellsValue, SpellsObservation, SpellsTest, SpellsTwoValues, SpellsTwoObservations};

use crate::names_of::{put_choice_id, put_party, put_token};
use crate::number::{put_byte, put_number, put_text};
use contract::{Boxed, ChoiceId, Memory, Observation, Party, Text, Token, Value};

// ---- the forms without operands

fn put_available(out: &mut Vec<u8>, party: &Party, token: &Token) -> Result<(), Memory>
    ensures { SpellsValue result (available_money party.now token.now) out.old out.new }
{
    put_byte(out, 0x00)?;
    put_party(out, party)?;
    put_token(out, token)
}

fn put_constant(out: &mut Vec<u8>, number: i128) -> Result<(), Memory>
    ensures { Spells result (0x01 ∷ number_bytes number) (NumberFits number) out.old.items out.new.items }
{
    put_byte(out, 0x01)?;
    put_number(out, number)
}

// A choice that is looked up, by a value or an observation.
fn put_chosen(out: &mut Vec<u8>, tag: u8, id: &ChoiceId) -> Result<(), Memory>
    ensures { Spells result (tag ∷ choice_id_bytes id.now) (ChoiceIdFits id.now) out.old.items out.new.items }
{
    put_byte(out, tag)?;
    put_choice_id(out, id)
}

fn put_use(out: &mut Vec<u8>, name: &Text) -> Result<(), Memory>
    ensures { Spells result (0x0a ∷ text_bytes name.now) (TextFits name.now) out.old.items out.new.items }
{
    put_byte(out, 0x0a)?;
    put_text(out, name)
}

// ---- operands

#[cycle(put_value)]
fn put_operand(out: &mut Vec<u8>, value: &Boxed<Value>) -> Result<(), Memory>
    ensures { SpellsValue result (value_tree value.now) out.old out.new }
{
    put_value(out, value.get())
}

#[cycle(put_value)]
fn put_condition(out: &mut Vec<u8>, observation: &Boxed<Observation>) -> Result<(), Memory>
    ensures { SpellsObservation result (observation_tree observation.now) out.old out.new }
{
    put_observation(out, observation.get())
}

#[cycle(put_value)]
fn put_neg(out: &mut Vec<u8>, a: &Boxed<Value>) -> Result<(), Memory>
    ensures { Spells result (0x02 ∷ value_bytes (value_tree a.now)) (ValueFits (value_tree a.now)) out.old.items out.new.items }
{
    put_byte(out, 0x02)?;
    put_operand(out, a)
}

// A tag, and two values.
#[cycle(put_value)]
fn put_operands(
    out: &mut Vec<u8>,
    tag: u8,
    a: &Boxed<Value>,
    b: &Boxed<Value>,
) -> Result<(), Memory>
    ensures { SpellsTwoValues result tag (value_tree a.now) (value_tree b.now) out.old out.new }
{
    put_byte(out, tag)?;
    put_operand(out, a)?;
    put_operand(out, b)
}

#[cycle(put_value)]
fn put_cond(
    out: &mut Vec<u8>,
    observation: &Boxed<Observation>,
    a: &Boxed<Value>,
    b: &Boxed<Value>,
) -> Result<(), Memory>
    ensures { SpellsValue result (cond_value (observation_tree observation.now) (value_tree a.now) (value_tree b.now)) out.old out.new }
{
    put_byte(out, 0x0b)?;
    put_condition(out, observation)?;
    put_operand(out, a)?;
    put_operand(out, b)
}

#[cycle(put_value)]
fn put_not(out: &mut Vec<u8>, a: &Boxed<Observation>) -> Result<(), Memory>
    ensures { SpellsTest result 0x02 (observation_tree a.now) out.old out.new }
{
    put_byte(out, 0x02)?;
    put_condition(out, a)
}

// A tag, and two observations.
#[cycle(put_value)]
fn put_conditions(
    out: &mut Vec<u8>,
    tag: u8,
    a: &Boxed<Observation>,
    b: &Boxed<Observation>,
) -> Result<(), Memory>
    ensures { SpellsTwoObservations result tag (observation_tree a.now) (observation_tree b.now) out.old out.new }
{
    put_byte(out, tag)?;
    put_condition(out, a)?;
    put_condition(out, b)
}

// ---- all forms

#[cycle(put_value)]
pub(crate) fn put_value(out: &mut Vec<u8>, value: &Value) -> Result<(), Memory>
    ensures { SpellsValue result (value_tree value.now) out.old out.new }
{
    match value {
        Value::AvailableMoney(party, token) => put_available(out, party, token),
        Value::Constant(number) => put_constant(out, *number),
        Value::NegValue(a) => put_neg(out, a),
        Value::AddValue(a, b) => put_operands(out, 0x03, a, b),
        Value::SubValue(a, b) => put_operands(out, 0x04, a, b),
        Value::MulValue(a, b) => put_operands(out, 0x05, a, b),
        Value::DivValue(a, b) => put_operands(out, 0x06, a, b),
        Value::ChoiceValue(id) => put_chosen(out, 0x07, id),
        Value::TimeIntervalStart => put_byte(out, 0x08),
        Value::TimeIntervalEnd => put_byte(out, 0x09),
        Value::UseValue(name) => put_use(out, name),
        Value::Cond(observation, a, b) => put_cond(out, observation, a, b),
    }
}

#[cycle(put_value)]
pub(crate) fn put_observation(out: &mut Vec<u8>, observation: &Observation) -> Result<(), Memory>
    ensures { SpellsObservation result (observation_tree observation.now) out.old out.new }
{
    match observation {
        Observation::AndObs(a, b) => put_conditions(out, 0x00, a, b),
        Observation::OrObs(a, b) => put_conditions(out, 0x01, a, b),
        Observation::NotObs(a) => put_not(out, a),
        Observation::ChoseSomething(id) => put_chosen(out, 0x03, id),
        Observation::ValueGE(a, b) => put_operands(out, 0x04, a, b),
        Observation::ValueGT(a, b) => put_operands(out, 0x05, a, b),
        Observation::ValueLT(a, b) => put_operands(out, 0x06, a, b),
        Observation::ValueLE(a, b) => put_operands(out, 0x07, a, b),
        Observation::ValueEQ(a, b) => put_operands(out, 0x08, a, b),
        Observation::TrueObs => put_byte(out, 0x09),
        Observation::FalseObs => put_byte(out, 0x0a),
    }
}
