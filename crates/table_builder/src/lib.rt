//! A flat table that is being made, a node at a time. Equal nodes are kept once.
#![tactic(auto)]

mod builder;
mod node_index;

pub use builder::Builder;
