//! Observations by numbers.
use names::ChoiceId;
use names::collections::{Memory, Same, TryClone};

/// An observation whose operands are numbers of a table (Marlowe specification version 3, "Values and
/// observations").
#[derive(PartialEq, Eq, Hash, Drop)]
pub enum ObservationNode {
    /// Both are true.
    AndObs(u32, u32),
    /// One of the two is true, or both are.
    OrObs(u32, u32),
    /// It is false.
    NotObs(u32),
    /// A number was chosen.
    ChoseSomething(ChoiceId),
    /// The first value is no less than the second.
    ValueGE(u32, u32),
    /// The first value is greater than the second.
    ValueGT(u32, u32),
    /// The first value is less than the second.
    ValueLT(u32, u32),
    /// The first value is no greater than the second.
    ValueLE(u32, u32),
    /// The two values are equal.
    ValueEQ(u32, u32),
    /// Always true.
    TrueObs,
    /// Never true.
    FalseObs,
}

impl TryClone for ObservationNode {
    fn try_clone(&self) -> Result<ObservationNode, Memory> {
        match self {
            ObservationNode::AndObs(a, b) => Ok(ObservationNode::AndObs(*a, *b)),
            ObservationNode::OrObs(a, b) => Ok(ObservationNode::OrObs(*a, *b)),
            ObservationNode::NotObs(a) => Ok(ObservationNode::NotObs(*a)),
            ObservationNode::ChoseSomething(id) => {
                Ok(ObservationNode::ChoseSomething(id.try_clone()?))
            }
            ObservationNode::ValueGE(a, b) => Ok(ObservationNode::ValueGE(*a, *b)),
            ObservationNode::ValueGT(a, b) => Ok(ObservationNode::ValueGT(*a, *b)),
            ObservationNode::ValueLT(a, b) => Ok(ObservationNode::ValueLT(*a, *b)),
            ObservationNode::ValueLE(a, b) => Ok(ObservationNode::ValueLE(*a, *b)),
            ObservationNode::ValueEQ(a, b) => Ok(ObservationNode::ValueEQ(*a, *b)),
            ObservationNode::TrueObs => Ok(ObservationNode::TrueObs),
            ObservationNode::FalseObs => Ok(ObservationNode::FalseObs),
        }
    }
}

impl Same for ObservationNode {
    fn same(&self, other: &ObservationNode) -> bool {
        *self == *other
    }
}
