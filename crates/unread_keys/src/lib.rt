//! The members of objects that a reader passes over: their keys are none of the form by which the object is read, or stand again
//! further on. Of a contract, a transaction, a state or a scenario that is read.
#![tactic(auto)]

mod laws;
mod of_text;
mod sorts;
mod unread;
mod walk;

pub use laws::worked_notes;
pub use of_text::unread_keys;
pub use unread::{Step, Unread, Why};
