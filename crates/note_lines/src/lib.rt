//! Notes on a contract, as they are printed: lines for people, and JSON for tools.
#![tactic(auto)]

mod lines;
mod tools;

pub use lines::put_note_lines;
pub use tools::put_notes_json;
