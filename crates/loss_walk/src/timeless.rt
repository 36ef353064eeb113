//! Whether a time is read.
ghost use Rattle.std.specs.Prelude.{◌≡◌};
ghost use Rattle.contract.specs.Tree.{value_tree, observation_tree};
ghost use Rattle.loss_walk.specs.Cuts.{is_timeless, holds_timeless};

use contract::{Observation, Value};

/// Whether a value reads no time.
#[cycle(times)]
pub(crate) fn is_timeless(value: &Value) -> bool
    ensures { result ≡ is_timeless (value_tree value.now) }
{
    match value {
        Value::AvailableMoney(_, _)
        | Value::Constant(_)
        | Value::ChoiceValue(_)
        | Value::UseValue(_) => true,
        Value::TimeIntervalStart | Value::TimeIntervalEnd => false,
        Value::NegValue(a) => is_timeless(a.get()),
        Value::AddValue(a, b) => is_timeless(a.get()) && is_timeless(b.get()),
        Value::SubValue(a, b) => is_timeless(a.get()) && is_timeless(b.get()),
        Value::MulValue(a, b) => is_timeless(a.get()) && is_timeless(b.get()),
        Value::DivValue(a, b) => is_timeless(a.get()) && is_timeless(b.get()),
        Value::Cond(observation, a, b) => {
            holds_timeless(observation.get()) && (is_timeless(a.get()) && is_timeless(b.get()))
        }
    }
}

/// Whether an observation does.
#[cycle(times)]
pub(crate) fn holds_timeless(observation: &Observation) -> bool
    ensures { result ≡ holds_timeless (observation_tree observation.now) }
{
    match observation {
        Observation::AndObs(a, b) => holds_timeless(a.get()) && holds_timeless(b.get()),
        Observation::OrObs(a, b) => holds_timeless(a.get()) && holds_timeless(b.get()),
        Observation::NotObs(a) => holds_timeless(a.get()),
        Observation::ChoseSomething(_) | Observation::TrueObs | Observation::FalseObs => true,
        Observation::ValueGE(a, b) => is_timeless(a.get()) && is_timeless(b.get()),
        Observation::ValueGT(a, b) => is_timeless(a.get()) && is_timeless(b.get()),
        Observation::ValueLT(a, b) => is_timeless(a.get()) && is_timeless(b.get()),
        Observation::ValueLE(a, b) => is_timeless(a.get()) && is_timeless(b.get()),
        Observation::ValueEQ(a, b) => is_timeless(a.get()) && is_timeless(b.get()),
    }
}
