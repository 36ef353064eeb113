//! What it means that a party keeps up, and what it gets while it does.
//!
//! A party keeps up in a run if it lets no time pass up to which the contract waits for a deposit of its own or a choice of its
//! own. `specs/KeepsUp.antt` says what that means, moment by moment: so it doesn't matter whether a transaction found the contract
//! waiting. `worked_keeping` has runs that are judged by the definitions.
#![tactic(auto)]

mod kept;
mod laws;

pub use kept::Kept;
pub use laws::worked_keeping;
