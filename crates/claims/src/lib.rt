//! Ranges of numbers that are claimed one after another, and what of them each claim gets: the first that claims a number has it.
#![tactic(auto)]

mod claim;
mod settled;

pub use claim::Claim;
pub use settled::first_come;
