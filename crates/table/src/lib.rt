//! Contracts as flat lists of numbered nodes.
#![tactic(auto)]

mod leaves;
mod parts;
mod table;

pub use contract::{collections, names};
pub use evaluation;
pub use leaves::Leaves128;
pub use nodes::{CaseNode, Cont, ContNode, Entry, ObservationNode, ValueNode};
pub use table::Table;
