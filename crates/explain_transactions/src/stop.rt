//! What stops a transaction.
use contract::{Party, Token};

/// Why a transaction goes no further from where it stands.
#[derive(Clone, Copy)]
pub(crate) enum Stop<'a> {
    /// The timeout of the When there lies inside the interval.
    Ambiguous(i64),
    /// A number of the value, the observation or the action there leaves 128 bits.
    Value,
    /// The sum that is made there in the account of an owner and a token leaves 128 bits.
    Sum(&'a Party, &'a Token),
    /// No case takes the input.
    Unmatched,
}

/// What came of one reduction.
#[derive(Clone, Copy)]
pub(crate) enum Moved<'a> {
    /// It goes on.
    On,
    /// All is quiet.
    Rests,
    /// It can't be made.
    Stops(Stop<'a>),
}
