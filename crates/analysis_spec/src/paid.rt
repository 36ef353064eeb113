//! What parties are paid.
use contract::{Party, Token};

/// How much of a token, in its smallest unit, a party is paid by a contract: at least `least` once it is closed,
/// and never more than `most`. A bound that is none isn't known.
#[derive(Debug, Drop)]
pub struct PaidRange {
    pub party: Party,
    pub token: Token,
    pub least: Option<i128>,
    pub most: Option<i128>,
}
