//! Plans.
use crate::intent::Intent;
use contract::{Items, Text};

/// What one party does, and as whom, in a plan that names threads by a `T` and contracts by a `C`.
#[derive(Drop)]
pub struct Plan<T, C> {
    pub name: Text,
    /// The addresses that sign the party's transactions, and whose outputs are offered to fund them.
    pub keys: Items<Text>,
    /// The address to which change and claimed payouts go.
    pub change: Text,
    /// What it does, in order.
    pub intents: Items<Intent<T, C>>,
    /// How many calls the party makes at most, if it stops after some: it stops also in the middle of an intent.
    pub stop_after: Option<u64>,
}
