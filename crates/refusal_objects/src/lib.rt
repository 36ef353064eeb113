//! A refusal as JSON, for tools: an object that says what is refused and the name of the fault, of a transaction also its number, and behind
//! them what else is told of it. And the status that goes with it.
#![tactic(auto)]

mod objects;
mod told;
mod worked;

pub use objects::{named_members, refused_line, refused_object};
pub use told::{members, status};
pub use worked::worked_objects;
