//! What is printed of a contract that waits, or that closes: the inputs that apply, until when it waits, and what the reduction before the
//! inputs pays and warns of. `told_lines` prints lines for people, and `told_json` one line of JSON for tools.
#![tactic(auto)]

mod json_inputs;
mod json_lists;
mod json_text;
mod laws;
mod lines;
mod pieces;
mod terms;
mod told;
mod words;

pub use json_text::told_json;
pub use laws::worked_lines;
pub use lines::told_lines;
pub use told::{CaseTold, Deposit, ToldHere, ToldWarning};
