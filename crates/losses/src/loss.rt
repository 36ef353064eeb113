//! What a party can lose.
use contract::{Party, Token};

/// How much more of a token, in its smallest unit, a party brings into a contract than it is paid, once nothing is left in it: at
/// most `most`. If that is none, it isn't known.
#[derive(Debug, Drop)]
pub struct Loss {
    pub party: Party,
    pub token: Token,
    pub most: Option<i128>,
}
