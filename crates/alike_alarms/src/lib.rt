//! Alarms of one kind at equal parts of a contract. One of them is told in full, and of the others how many there are.
//!
//! `specs/Alike.antt` says what that means: each alarm is told itself, or by one of its kind at an equal part that is told
//! itself. So none is lost. Of all that are told by one it is the first that has a run, or the first where none has one.
#![tactic(auto)]

mod guesses;
mod heads;
mod numbers;
mod parts;
mod seen;
mod tellers;

pub use heads::heads_of;
pub use seen::Seen;
