//! Lines of outcomes in which numbers outside -2^53 to 2^53 are texts of their digits: for tools that hold each number as a double. The
//! contract that remains keeps its numbers, and so does the minimum time: both are read again.
#![tactic(auto)]

mod laws;
mod lines;
mod place;

pub use laws::{lines_are_of_values, outcomes_have_texts, worked_texts};
pub use lines::big_as_text;
