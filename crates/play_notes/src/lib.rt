//! What is told behind the entries of a play: lines of four blanks and a text.
//!
//! `notes_of` says in words why something was refused, as the reply of each entry tells it. `unbuilt_text` says what hindered an intent,
//! and how much lacked. `put_behind` puts more behind an entry, and `noted_lines` prints the entries with their notes. `specs/Notes.antt`
//! and `specs/Intents.antt` say what stands there.
#![tactic(auto)]

mod intents;
mod lacking;
mod noted;
mod notes;
mod replies;
mod worked;

pub use intents::{
    asks_for_nothing, cause_words, contract_name, intent_text, is_no_thread, thread_name,
    unbuilt_text,
};
pub use noted::noted_lines;
pub use notes::{notes_of, put_behind};
pub use worked::worked_notes;
