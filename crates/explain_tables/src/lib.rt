//! Why a contract has no table: where it is too deep, or how many nodes it has. A second look, made once `compile` refuses it.
//!
//! `explain` finds a record, `Explanation`; `explained` writes it as a line for people, which stands behind the line of the refusal,
//! indented, or as a member of a JSON object for tools.
#![tactic(auto)]

mod branches;
mod counts;
mod depths;
mod explanation;
mod finding;
mod laws;
mod lines;
mod members;
mod strides;

pub use counts::{continuations, other_nodes};
pub use depths::too_deep_at;
pub use explanation::Explanation;
pub use finding::explain;
pub use laws::{explained_contracts_are_refused, worked_depths};
pub use lines::explained;
