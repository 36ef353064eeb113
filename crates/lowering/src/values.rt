//! The nodes of values and observations.
ghost use Rattle.std.specs.Prelude.{◌≡◌, ◌+◌, ◌≤◌, IfOk};
ghost use Rattle.contract.specs.Tree.{value_tree, observation_tree};
ghost use Rattle.table.specs.Heights.{value_height, observation_height};
ghost use Rattle.table.specs.Flat.{IsFlat};
ghost use Rattle.lowering.specs.Sizes.{value_size, observation_size};
ghost use Rattle.lowering.specs.Code.{code_value, code_observation};
ghost use Rattle.lowering.specs.Building.{HasRoom, code_values, code_observations};

use contract::{Boxed, Memory, Observation, TryClone, Value};
use table::{ObservationNode, ValueNode};
use table_builder::Builder;

// The number of a value: its operands first.
#[cycle(add_value)]
#[tactic(auto, using(crate::proofs::Forms::value_forms))]
pub(crate) fn add_value(builder: &mut Builder, value: &Value) -> Result<u32, Memory>
    requires flat { IsFlat builder.old }
    requires low { value_height (value_tree value.now) ≤ 999 }
    requires room { HasRoom builder.old (value_size (value_tree value.now)) }
    ensures code { IfOk result (λ _. builder.new ≡ (code_value (value_tree value.now) builder.old).0) }
    ensures number { IfOk result (λ k. k ≡ (code_value (value_tree value.now) builder.old).1) }
{
    match value {
        Value::AvailableMoney(party, token) => {
            let node = ValueNode::AvailableMoney(party.try_clone()?, token.try_clone()?);
            builder.put_value(node)
        }
        Value::Constant(number) => builder.put_value(ValueNode::Constant(*number)),
        Value::NegValue(a) => {
            let number = add_value(builder, a.get())?;
            builder.put_value(ValueNode::NegValue(number))
        }
        Value::AddValue(a, b) => {
            let (left, right) = add_values(builder, a, b)?;
            builder.put_value(ValueNode::AddValue(left, right))
        }
        Value::SubValue(a, b) => {
            let (left, right) = add_values(builder, a, b)?;
            builder.put_value(ValueNode::SubValue(left, right))
        }
        Value::MulValue(a, b) => {
            let (left, right) = add_values(builder, a, b)?;
            builder.put_value(ValueNode::MulValue(left, right))
        }
        Value::DivValue(a, b) => {
            let (left, right) = add_values(builder, a, b)?;
            builder.put_value(ValueNode::DivValue(left, right))
        }
        Value::ChoiceValue(id) => builder.put_value(ValueNode::ChoiceValue(id.try_clone()?)),
        Value::TimeIntervalStart => builder.put_value(ValueNode::TimeIntervalStart),
        Value::TimeIntervalEnd => builder.put_value(ValueNode::TimeIntervalEnd),
        Value::UseValue(name) => builder.put_value(ValueNode::UseValue(name.try_clone()?)),
        Value::Cond(observation, a, b) => {
            let condition = add_observation(builder, observation.get())?;
            let (left, right) = add_values(builder, a, b)?;
            builder.put_value(ValueNode::Cond(condition, left, right))
        }
    }
}

// The numbers of two values, the first of which is made first.
#[cycle(add_value)]
#[tactic(auto, using(crate::proofs::Forms::value_sizes))]
fn add_values(
    builder: &mut Builder,
    a: &Boxed<Value>,
    b: &Boxed<Value>,
) -> Result<(u32, u32), Memory>
    requires flat { IsFlat builder.old }
    requires low_left { value_height (value_tree a.now) ≤ 999 }
    requires low_right { value_height (value_tree b.now) ≤ 999 }
    requires room { HasRoom builder.old (value_size (value_tree a.now) + value_size (value_tree b.now)) }
    ensures code { IfOk result (λ _. builder.new ≡ (code_values (value_tree a.now) (value_tree b.now) builder.old).0) }
    ensures left { IfOk result (λ ns. ns.0 ≡ (code_value (value_tree a.now) builder.old).1) }
    ensures right { IfOk result (λ ns. ns.1 ≡ (code_values (value_tree a.now) (value_tree b.now) builder.old).1) }
{
    let left = add_value(builder, a.get())?;
    let right = add_value(builder, b.get())?;
    Ok((left, right))
}

// The number of an observation: its operands first.
#[cycle(add_value)]
#[tactic(auto, using(crate::proofs::Forms::observation_forms))]
pub(crate) fn add_observation(
    builder: &mut Builder,
    observation: &Observation,
) -> Result<u32, Memory>
    requires flat { IsFlat builder.old }
    requires low { observation_height (observation_tree observation.now) ≤ 999 }
    requires room { HasRoom builder.old (observation_size (observation_tree observation.now)) }
    ensures code { IfOk result (λ _. builder.new ≡ (code_observation (observation_tree observation.now) builder.old).0) }
    ensures number { IfOk result (λ k. k ≡ (code_observation (observation_tree observation.now) builder.old).1) }
{
    match observation {
        Observation::AndObs(a, b) => {
            let (left, right) = add_observations(builder, a, b)?;
            builder.put_observation(ObservationNode::AndObs(left, right))
        }
        Observation::OrObs(a, b) => {
            let (left, right) = add_observations(builder, a, b)?;
            builder.put_observation(ObservationNode::OrObs(left, right))
        }
        Observation::NotObs(a) => {
            let number = add_observation(builder, a.get())?;
            builder.put_observation(ObservationNode::NotObs(number))
        }
        Observation::ChoseSomething(id) => {
            builder.put_observation(ObservationNode::ChoseSomething(id.try_clone()?))
        }
        Observation::ValueGE(a, b) => {
            let (left, right) = add_values(builder, a, b)?;
            builder.put_observation(ObservationNode::ValueGE(left, right))
        }
        Observation::ValueGT(a, b) => {
            let (left, right) = add_values(builder, a, b)?;
            builder.put_observation(ObservationNode::ValueGT(left, right))
        }
        Observation::ValueLT(a, b) => {
            let (left, right) = add_values(builder, a, b)?;
            builder.put_observation(ObservationNode::ValueLT(left, right))
        }
        Observation::ValueLE(a, b) => {
            let (left, right) = add_values(builder, a, b)?;
            builder.put_observation(ObservationNode::ValueLE(left, right))
        }
        Observation::ValueEQ(a, b) => {
            let (left, right) = add_values(builder, a, b)?;
            builder.put_observation(ObservationNode::ValueEQ(left, right))
        }
        Observation::TrueObs => builder.put_observation(ObservationNode::TrueObs),
        Observation::FalseObs => builder.put_observation(ObservationNode::FalseObs),
    }
}

// The numbers of two observations, the first of which is made first.
#[cycle(add_value)]
#[tactic(auto, using(crate::proofs::Forms::observation_sizes))]
fn add_observations(
    builder: &mut Builder,
    a: &Boxed<Observation>,
    b: &Boxed<Observation>,
) -> Result<(u32, u32), Memory>
    requires flat { IsFlat builder.old }
    requires low_left { observation_height (observation_tree a.now) ≤ 999 }
    requires low_right { observation_height (observation_tree b.now) ≤ 999 }
    requires room { HasRoom builder.old (observation_size (observation_tree a.now) + observation_size (observation_tree b.now)) }
    ensures code { IfOk result (λ _. builder.new ≡ (code_observations (observation_tree a.now) (observation_tree b.now) builder.old).0) }
    ensures left { IfOk result (λ ns. ns.0 ≡ (code_observation (observation_tree a.now) builder.old).1) }
    ensures right { IfOk result (λ ns. ns.1 ≡ (code_observations (observation_tree a.now) (observation_tree b.now) builder.old).1) }
{
    let left = add_observation(builder, a.get())?;
    let right = add_observation(builder, b.get())?;
    Ok((left, right))
}
