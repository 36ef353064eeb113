//! The lines of a text as an object for tools: `{"lines":[..]}`, each line a text without its line feed.
#![tactic(auto)]

mod objects;
mod worked;

pub use objects::lines_object;
pub use worked::worked_objects;
