//! Values and observations (Marlowe specification version 3, "Values and observations").
use states::collections::{Boxed, Text};
use states::names::{ChoiceId, Party, Token};

/// A number that depends on the state and the interval of a transaction (Marlowe specification version
/// 3, "Values and observations").
#[cycle(value)]
#[derive(Drop, Hash)]
pub enum Value {
    /// What the account of a party holds of a token, in its smallest unit: 0 where it has no entry.
    AvailableMoney(Party, Token),
    /// A number.
    Constant(i128),
    /// A value with its sign turned.
    NegValue(Boxed<Value>),
    /// The sum of two values.
    AddValue(Boxed<Value>, Boxed<Value>),
    /// The first value less the second.
    SubValue(Boxed<Value>, Boxed<Value>),
    /// The product of two values.
    MulValue(Boxed<Value>, Boxed<Value>),
    /// The first value divided by the second, cut toward zero: 0 where the second is 0.
    DivValue(Boxed<Value>, Boxed<Value>),
    /// The number that was chosen: 0 where none was.
    ChoiceValue(ChoiceId),
    /// The start of the interval, in POSIX milliseconds.
    TimeIntervalStart,
    /// The end of the interval, in POSIX milliseconds.
    TimeIntervalEnd,
    /// The value that is bound to a name: 0 where none is.
    UseValue(Text),
    /// The first value where the observation is true, else the second.
    Cond(Boxed<Observation>, Boxed<Value>, Boxed<Value>),
}

/// A truth about the state and the interval of a transaction (Marlowe specification version 3,
/// "Values and observations").
#[cycle(value)]
#[derive(Drop, Hash)]
pub enum Observation {
    /// Both are true.
    AndObs(Boxed<Observation>, Boxed<Observation>),
    /// One of the two is true, or both are.
    OrObs(Boxed<Observation>, Boxed<Observation>),
    /// It is false.
    NotObs(Boxed<Observation>),
    /// A number was chosen.
    ChoseSomething(ChoiceId),
    /// The first value is no less than the second.
    ValueGE(Boxed<Value>, Boxed<Value>),
    /// The first value is greater than the second.
    ValueGT(Boxed<Value>, Boxed<Value>),
    /// The first value is less than the second.
    ValueLT(Boxed<Value>, Boxed<Value>),
    /// The first value is no greater than the second.
    ValueLE(Boxed<Value>, Boxed<Value>),
    /// The two values are equal.
    ValueEQ(Boxed<Value>, Boxed<Value>),
    /// Always true.
    TrueObs,
    /// Never true.
    FalseObs,
}

#[derived]
impl Hash for Value {
    ghost use Rattle.std.specs.Hash.{same_Alike};
    ghost use Rattle.states.proofs.FromCollections.SameLaws.{same_by_decides};
    ghost use Rattle.contract.specs.contracts.value.Value as it;

    ghost respects_eq = { (same_Alike _ (same_by_decides it.the_row.coded)).fed };
}

#[derived]
impl Hash for Observation {
    ghost use Rattle.std.specs.Hash.{same_Alike};
    ghost use Rattle.states.proofs.FromCollections.SameLaws.{same_by_decides};
    ghost use Rattle.contract.specs.contracts.value.Observation as it;

    ghost respects_eq = { (same_Alike _ (same_by_decides it.the_row.coded)).fed };
}
