//! Scenarios as they are played: from a text to the lines that tell what happened.
//!
//! `play` reads a scenario, sets up its ledger, gives each plan to a party with a seat of its own, and prints a line for each
//! entry of the history, for each thread and for the number of entries. If it is asked to explain, it tells behind entries what steps did
//! and what hindered intents, and at the end how each intent ended and who holds what. `play_asked` also has it as objects of
//! JSON, and says whether all went well. Parties play at once, each in a thread of its own, or in turn. A `Watch` is told how far they are. docs/formats.md has scenarios and
//! lines.
#![tactic(auto)]

mod all;
mod asked;
mod fault;
mod lines;
mod notes;
mod playing;
mod refusal_line;
mod strict;
mod turns;

pub use asked::{Asked, Face, Played};
pub use fault::PlayFault;
pub use json_read_names::JsonFault;
pub use parties::{Memory, NoWatch, Watch};
pub use play_endings::{Fault, RunFault, TableFault, TraceFault, json_fault_name, refusal};
pub use play_setup::{Cause, SetupRefusal, setup_members};
pub use playing::{How, play, play_asked, play_value, play_watched};
pub use refusal_line::play_refusal;
