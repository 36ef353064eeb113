//! Contracts that are named, so that many requests speak of one that was read once.
#![tactic(auto)]

mod definition;
mod definitions;

pub use definition::Definition;
pub use definitions::{DefineFault, Definitions, MOST, MOST_BYTES};
