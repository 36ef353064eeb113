//! Notes on a contract, a transaction, a state or a scenario that is read, in lines for people: the keys that are passed over, since
//! the form has no such key, or since the same key stands again further on.
#![tactic(auto)]

mod laws;
mod lines;
mod notes;
mod standing;

pub use laws::worked_lines;
pub use notes::notes_on;
