//! The lines of a play, as they are printed: one for each entry of its history, for each of its threads, and for the number
//! of entries. And faults of rules and of builders as their names. docs/formats.md shows them.
#![tactic(auto)]

mod entries;
mod fault_texts;
mod text;
mod threads;
mod worked;

pub use entries::print_entry;
pub use fault_texts::{build_fault_text, tx_fault_text};
pub use text::played_lines;
pub use threads::{ThreadLine, print_threads};
pub use worked::worked_lines;
