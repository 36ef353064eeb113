//! Contracts listed in flat tables: the nodes of a tree, put into a table one after the other, and how many they are.
#![tactic(auto)]

mod contracts;
mod laws;
mod sizes;
mod values;

pub use contracts::lower;
pub use laws::{codes_stand, worked_tables};
pub use sizes::{conts_left, is_low_contract, others_left};
