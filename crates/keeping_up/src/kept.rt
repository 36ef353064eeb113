//! What a party gets of a token while it keeps up.
use contract::Token;

/// What a party is paid of a token, in its smallest unit, at least, and how much more it brings than it is paid at most, once
/// nothing is left in the contract, in runs in which it keeps up. Where `most` is below 0, it is paid so much more than it brings;
/// where it is none, it isn't known.
#[derive(Debug, Drop)]
pub struct Kept {
    pub token: Token,
    pub least: i128,
    pub most: Option<i128>,
}
