//! Tables as they are printed: a line for each node, and one for the root.
#![tactic(auto)]

mod laws;
mod lines;
mod lists;
mod text;

pub use laws::worked_lines;
pub use text::table_lines;
