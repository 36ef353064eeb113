//! Where the reading of a scenario stops: the first part that isn't read, with the path to it and its fault. Each part is read beside the
//! contracts, threads and plans that were read before it, since a name may be theirs, or must be new. A second look at a value that
//! the reader of scenarios has refused.
#![tactic(auto)]

mod form;
mod known;
mod listed;
mod numbers;
mod walk;

pub use listed::names_in;
pub use walk::first_stop;
