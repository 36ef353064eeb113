//! What of a play's setup is refused, and why: the line that tells it, and the members of a JSON object that tell it to tools.
#![tactic(auto)]

mod line;
mod members;
mod refusal;
mod worked;

pub use line::setup_line;
pub use members::setup_members;
pub use refusal::{Cause, SetupRefusal};
pub use worked::worked_refusals;
