//! Kinds of alarms.

/// What may go wrong in a run of a contract: a kind of warning, or a number that leaves 128 bits.
#[derive(Clone, Copy, Debug, PartialEq, Eq, Hash, Drop)]
pub enum AlarmKind {
    /// A deposit of 0 or less.
    NonPositiveDeposit,
    /// A Pay of 0 or less.
    NonPositivePay,
    /// A Pay of more than the account has.
    PartialPay,
    /// A Let of a name that is bound already.
    Shadowing,
    /// An Assert whose observation is false.
    AssertionFailed,
    /// A number that doesn't lie from -2^127 to 2^127 - 1, for which a transaction is refused.
    Leaves128,
}
