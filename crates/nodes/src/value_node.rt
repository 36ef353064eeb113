//! Values by numbers.
use names::collections::{Memory, Same, Text, TryClone};
use names::{ChoiceId, Party, Token};

/// A value whose operands are numbers of a table (Marlowe specification version 3, "Values and
/// observations").
#[derive(PartialEq, Eq, Hash, Drop)]
pub enum ValueNode {
    /// What the account of a party holds of a token, in its smallest unit: 0 where it has no entry.
    AvailableMoney(Party, Token),
    /// A number.
    Constant(i128),
    /// A value with its sign turned.
    NegValue(u32),
    /// The sum of two values.
    AddValue(u32, u32),
    /// The first value less the second.
    SubValue(u32, u32),
    /// The product of two values.
    MulValue(u32, u32),
    /// The first value divided by the second, cut toward zero: 0 where the second is 0.
    DivValue(u32, u32),
    /// The number that was chosen: 0 where none was.
    ChoiceValue(ChoiceId),
    /// The start of the interval, in POSIX milliseconds.
    TimeIntervalStart,
    /// The end of the interval, in POSIX milliseconds.
    TimeIntervalEnd,
    /// The value that is bound to a name: 0 where none is.
    UseValue(Text),
    /// The first value where the observation is true, else the second.
    Cond(u32, u32, u32),
}

impl TryClone for ValueNode {
    fn try_clone(&self) -> Result<ValueNode, Memory> {
        match self {
            ValueNode::AvailableMoney(owner, token) => Ok(ValueNode::AvailableMoney(
                owner.try_clone()?,
                token.try_clone()?,
            )),
            ValueNode::Constant(number) => Ok(ValueNode::Constant(*number)),
            ValueNode::NegValue(a) => Ok(ValueNode::NegValue(*a)),
            ValueNode::AddValue(a, b) => Ok(ValueNode::AddValue(*a, *b)),
            ValueNode::SubValue(a, b) => Ok(ValueNode::SubValue(*a, *b)),
            ValueNode::MulValue(a, b) => Ok(ValueNode::MulValue(*a, *b)),
            ValueNode::DivValue(a, b) => Ok(ValueNode::DivValue(*a, *b)),
            ValueNode::ChoiceValue(id) => Ok(ValueNode::ChoiceValue(id.try_clone()?)),
            ValueNode::TimeIntervalStart => Ok(ValueNode::TimeIntervalStart),
            ValueNode::TimeIntervalEnd => Ok(ValueNode::TimeIntervalEnd),
            ValueNode::UseValue(name) => Ok(ValueNode::UseValue(name.try_clone()?)),
            ValueNode::Cond(observation, a, b) => Ok(ValueNode::Cond(*observation, *a, *b)),
        }
    }
}

impl Same for ValueNode {
    fn same(&self, other: &ValueNode) -> bool {
        *self == *other
    }
}
