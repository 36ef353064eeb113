//! The nodes of flat tables. What a node names, it names by its number.
#![tactic(auto)]

mod case_node;
mod cont;
mod cont_node;
mod entry;
mod observation_node;
mod value_node;

pub use case_node::CaseNode;
pub use cont::Cont;
pub use cont_node::ContNode;
pub use entry::Entry;
pub use observation_node::ObservationNode;
pub use value_node::ValueNode;
