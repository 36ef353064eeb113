//! Values and observations.
//! Where a call fails, what was written before it stays, and behind it stand some tokens or none.
ghost use Rattle.std.specs.Prelude.{true, OnOk, OnErr};
ghost use Rattle.serde_json.specs.Data.{string, boolean};
ghost use Rattle.hex.specs.Hex.{IsBytes};
ghost use Rattle.contract.specs.Tree.{value_tree, available_money, observation_tree};
ghost use Rattle.json_write_contracts.specs.Symbols.{ValueSymbols, ObservationSymbols};
ghost use Rattle.json_write_contracts.specs.Tokens.{Keeps, Puts, PutsFitting};
ghost use Rattle.json_write_contracts.specs.Puts.{PutsValue, PutsObservation};
ghost use Rattle.json_write_contracts.specs.PutsSupport.{AddsValue, AddsObservation, PutsOneValue, PutsOneObservation, PutsTwoValues, PutsTwoObservations, cond_tree};

use crate::fault::WriteFault;
use crate::members::{end_object, end_with_two, put_one, put_term};
use crate::name_forms::symbol_is_bytes;
use crate::numbers::put_number;
use contract::{Boxed, Memory, Observation, Party, Token, Value};
use json::Writer;
use std::alloc::Global;

fn put_available(
    alloc: Global,
    out: &mut Writer,
    party: &Party,
    token: &Token,
) -> Result<(), WriteFault>
    ensures put { PutsValue result out.old out.new (available_money party.now token.now) }
    ensures err { OnErr result (Keeps out.old out.new) }
    ensures symbol { OnOk result (IsBytes token.now.symbol) }
{
    // touch: the symbol is bytes
    symbol_is_bytes(token);
    out.begin_object()?;
    Ok(end_with_two(alloc, out, "amount_of_token", token, "in_account", party)?)
}

fn put_truth(out: &mut Writer, truth: bool) -> Result<(), WriteFault>
    ensures put { PutsFitting result out.old out.new true (boolean truth) }
    ensures err { OnErr result (Keeps out.old out.new) }
{
    Ok(out.boolean(truth)?)
}

/// Writes a word of its own.
pub fn word(out: &mut Writer, word: &str) -> Result<(), Memory>
    ensures put { OnOk result (Puts out.old out.new (string word.now)) }
    ensures err { OnErr result (Keeps out.old out.new) }
{
    out.string(word)
}

/// Writes a value: a constant as a number, and each other form as an object or a word of its own. A constant that
/// doesn't lie from -2^63 to 2^64 - 1 is out of range.
#[cycle(put_value)]
pub fn put_value(alloc: Global, out: &mut Writer, value: &Value) -> Result<(), WriteFault>
    ensures put { PutsValue result out.old out.new (value_tree value.now) }
    ensures err { OnErr result (Keeps out.old out.new) }
    ensures symbols { OnOk result (ValueSymbols (value_tree value.now)) }
{
    match value {
        Value::AvailableMoney(party, token) => put_available(alloc, out, party, token),
        Value::Constant(n) => put_number(out, *n),
        Value::NegValue(v) => one_value(alloc, out, "negate", v),
        Value::AddValue(v, w) => two_values(alloc, out, "add", v, "and", w),
        Value::SubValue(v, w) => two_values(alloc, out, "minus", w, "value", v),
        Value::MulValue(v, w) => two_values(alloc, out, "multiply", v, "times", w),
        Value::DivValue(v, w) => two_values(alloc, out, "by", w, "divide", v),
        Value::ChoiceValue(id) => put_one(alloc, out, "value_of_choice", id),
        Value::TimeIntervalStart => put_term(alloc, out, &"time_interval_start"),
        Value::TimeIntervalEnd => put_term(alloc, out, &"time_interval_end"),
        Value::UseValue(name) => put_one(alloc, out, "use_value", name),
        Value::Cond(condition, then, otherwise) => {
            put_cond(alloc, out, condition, then, otherwise)
        }
    }
}

/// Writes an observation: `true`, `false`, or an object. A constant in it that doesn't lie from -2^63 to 2^64 - 1 is
/// out of range.
#[cycle(put_value)]
pub fn put_observation(
    alloc: Global,
    out: &mut Writer,
    observation: &Observation,
) -> Result<(), WriteFault>
    ensures put { PutsObservation result out.old out.new (observation_tree observation.now) }
    ensures err { OnErr result (Keeps out.old out.new) }
    ensures symbols { OnOk result (ObservationSymbols (observation_tree observation.now)) }
{
    match observation {
        Observation::AndObs(o, p) => two_observations(alloc, out, "and", p, "both", o),
        Observation::OrObs(o, p) => two_observations(alloc, out, "either", o, "or", p),
        Observation::NotObs(o) => one_observation(alloc, out, "not", o),
        Observation::ChoseSomething(id) => put_one(alloc, out, "chose_something_for", id),
        Observation::ValueGE(v, w) => two_values(alloc, out, "ge_than", w, "value", v),
        Observation::ValueGT(v, w) => two_values(alloc, out, "gt", w, "value", v),
        Observation::ValueLT(v, w) => two_values(alloc, out, "lt", w, "value", v),
        Observation::ValueLE(v, w) => two_values(alloc, out, "le_than", w, "value", v),
        Observation::ValueEQ(v, w) => two_values(alloc, out, "equal_to", w, "value", v),
        Observation::TrueObs => put_truth(out, true),
        Observation::FalseObs => put_truth(out, false),
    }
}

// A member that is a value.
#[cycle(put_value)]
fn value_member(
    alloc: Global,
    out: &mut Writer,
    key: &str,
    value: &Boxed<Value>,
) -> Result<(), WriteFault>
    ensures put { AddsValue result out.old out.new key.now (value_tree value.now) }
    ensures err { OnErr result (Keeps out.old out.new) }
    ensures symbols { OnOk result (ValueSymbols (value_tree value.now)) }
{
    out.key(key)?;
    put_value(alloc, out, value.get())
}

// A member that is an observation.
#[cycle(put_value)]
fn observation_member(
    alloc: Global,
    out: &mut Writer,
    key: &str,
    observation: &Boxed<Observation>,
) -> Result<(), WriteFault>
    ensures put { AddsObservation result out.old out.new key.now (observation_tree observation.now) }
    ensures err { OnErr result (Keeps out.old out.new) }
    ensures symbols { OnOk result (ObservationSymbols (observation_tree observation.now)) }
{
    out.key(key)?;
    put_observation(alloc, out, observation.get())
}

#[cycle(put_value)]
fn one_value(
    alloc: Global,
    out: &mut Writer,
    key: &str,
    value: &Boxed<Value>,
) -> Result<(), WriteFault>
    ensures put { PutsOneValue result out.old out.new key.now (value_tree value.now) }
    ensures err { OnErr result (Keeps out.old out.new) }
    ensures symbols { OnOk result (ValueSymbols (value_tree value.now)) }
{
    out.begin_object()?;
    value_member(alloc, out, key, value)?;
    end_object(out)
}

#[cycle(put_value)]
fn one_observation(
    alloc: Global,
    out: &mut Writer,
    key: &str,
    observation: &Boxed<Observation>,
) -> Result<(), WriteFault>
    ensures put { PutsOneObservation result out.old out.new key.now (observation_tree observation.now) }
    ensures err { OnErr result (Keeps out.old out.new) }
    ensures symbols { OnOk result (ObservationSymbols (observation_tree observation.now)) }
{
    out.begin_object()?;
    observation_member(alloc, out, key, observation)?;
    end_object(out)
}

#[cycle(put_value)]
fn two_values(
    alloc: Global,
    out: &mut Writer,
    a: &str,
    v: &Boxed<Value>,
    b: &str,
    w: &Boxed<Value>,
) -> Result<(), WriteFault>
    ensures put { PutsTwoValues result out.old out.new a.now (value_tree v.now) b.now (value_tree w.now) }
    ensures err { OnErr result (Keeps out.old out.new) }
    ensures first_symbols { OnOk result (ValueSymbols (value_tree v.now)) }
    ensures second_symbols { OnOk result (ValueSymbols (value_tree w.now)) }
{
    out.begin_object()?;
    value_member(alloc, out, a, v)?;
    value_member(alloc, out, b, w)?;
    end_object(out)
}

#[cycle(put_value)]
fn two_observations(
    alloc: Global,
    out: &mut Writer,
    a: &str,
    o: &Boxed<Observation>,
    b: &str,
    p: &Boxed<Observation>,
) -> Result<(), WriteFault>
    ensures put { PutsTwoObservations result out.old out.new a.now (observation_tree o.now) b.now (observation_tree p.now) }
    ensures err { OnErr result (Keeps out.old out.new) }
    ensures first_symbols { OnOk result (ObservationSymbols (observation_tree o.now)) }
    ensures second_symbols { OnOk result (ObservationSymbols (observation_tree p.now)) }
{
    out.begin_object()?;
    observation_member(alloc, out, a, o)?;
    observation_member(alloc, out, b, p)?;
    end_object(out)
}

#[cycle(put_value)]
fn put_cond(
    alloc: Global,
    out: &mut Writer,
    condition: &Boxed<Observation>,
    then: &Boxed<Value>,
    otherwise: &Boxed<Value>,
) -> Result<(), WriteFault>
    ensures put { PutsValue result out.old out.new (cond_tree condition.now then.now otherwise.now) }
    ensures err { OnErr result (Keeps out.old out.new) }
    ensures condition_symbols { OnOk result (ObservationSymbols (observation_tree condition.now)) }
    ensures then_symbols { OnOk result (ValueSymbols (value_tree then.now)) }
    ensures otherwise_symbols { OnOk result (ValueSymbols (value_tree otherwise.now)) }
{
    out.begin_object()?;
    value_member(alloc, out, "else", otherwise)?;
    observation_member(alloc, out, "if", condition)?;
    value_member(alloc, out, "then", then)?;
    end_object(out)
}
