//! The lines of a stream, of at most 4 MiB each. A longer one is passed over without being kept.
#![tactic(auto)]

mod feed;
mod lines;
mod parts;

pub use lines::Lines;
pub use parts::{LONGEST_LINE, Step};
