//! Members of a JSON object as a text, one behind another and without the braces around them: what explanations write for tools.
#![tactic(auto)]

mod laws;
mod members;
mod spelling;
mod terms;

pub use laws::{members_are_an_object, worked_members};
pub use members::{put_first, put_next, put_next_text};
pub use spelling::Spelling;
pub use terms::{Count, Words};
