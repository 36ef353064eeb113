//! A list that only grows, and beginnings of it, for threads that share it under a lock.
//!
//! A `Journal` has one owner, which adds to it. Whoever holds a `Beginning` knows what the list once was, and the owner, or who holds the sealed
//! list, can show that it is still a beginning of it. Nothing of the list is kept at run time: it stands in the proofs, over a log of notes that
//! never loses one, each of which uses up a key and names the next.
#![tactic(auto)]

mod beginning;
mod blank;
mod journal;
mod naming;
mod note;
mod sealed;
mod steps;

pub use beginning::Beginning;
pub use blank::Blank;
pub use journal::Journal;
pub use naming::Naming;
pub use note::Note;
pub use sealed::Sealed;
