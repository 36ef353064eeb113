//! Notes on a contract: what is likely a slip, though no run warns of it.
//!
//! Four things are noted: a name or a choice that is read where nothing on the way there binds or makes it and the start
//! state doesn't have it, so that it reads 0; a Let whose name nothing behind it reads; a choice of more than one number whose
//! number nothing behind it reads; and a party that stands at one place of the contract alone. `specs/Reads.antt` says what
//! reads a name or a choice, and `unread_is_no_matter` that what isn't read doesn't change a number. `specs/Notes.antt` has
//! the notes, in the order of the contract. `specs/Coming.antt` says where runs come: what is missing on the way to a place is
//! missing in each run that comes there, and nothing else is (`known_is_there`).
#![tactic(auto)]

mod bounds;
mod laws;
mod note;
mod parties;
mod reads;
mod unbound;
mod walk;

pub use laws::{
    known_is_there, missing_reads_zero, transactions_are_steps, unread_is_no_matter, worked_notes,
};
pub use note::{Note, Remark, Source};
pub use parties::named_once;
pub use walk::notes_of;
