//! Why a transaction is refused.
use analysis_spec::PathStep;
use contract::{Items, Party, Token};
use trace::Left;

/// Why a transaction is refused, and where (Marlowe specification version 3, "Compute transaction"). Places are paths into the
/// contract from which the transaction starts.
#[derive(Drop)]
pub enum Explanation<'a> {
    /// `InvalidInterval`: the interval ends before it begins.
    InvalidInterval,
    /// `IntervalInPast`: the interval ends before this minimum time of the state, in POSIX milliseconds.
    IntervalInPast(i64),
    /// `Ambiguous`: at this place stands a When whose timeout, in POSIX milliseconds, lies inside the interval: after its start, as
    /// it is fixed, and not after its end.
    Ambiguous(Items<PathStep>, i64),
    /// `NoMatch`: the input at this index, from 0, is the first that no case takes. So the contract waits then, or it is closed.
    NoMatch(usize, Left<'a>),
    /// `Useless`: there is no input, and nothing to reduce. So the contract waits, or it is closed.
    Useless(Left<'a>),
    /// `Leaves128`: the first number that leaves 128 bits is one of the value or the observation at this place.
    ValueLeaves(Items<PathStep>),
    /// `Leaves128`: the first number that leaves 128 bits is the sum that is made at this place in the account of an owner and a
    /// token.
    SumLeaves(Items<PathStep>, &'a Party, &'a Token),
}
