//! Faults of a ledger's rules and of builders in words: one line a fault, for people. The names of the same faults are in `play_lines`.
#![tactic(auto)]

mod builders;
mod laws;
mod rules;
mod words;

pub use builders::{build_words, lacking_words, too_little_words};
pub use laws::worked_words;
pub use rules::rule_words;
