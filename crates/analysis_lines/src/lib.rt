//! What is told of a contract, as lines for people and as JSON for tools: its alarms with their runs, the parts to which no run comes, what
//! parties are paid and can lose, with the runs that reach these bounds, from when on all can be taken out, notes, and what a party is sure of while
//! it keeps up.
#![tactic(auto)]

mod kept;
mod lines;
mod people;
mod reached;
mod told;
mod tools;

pub use kept::with_kept;
pub use people::lines_for_people;
pub use told::{Told, ToldAlarm};
pub use tools::json_for_tools;
