//! Where the reading of a contract, a transaction or a state stops: the first part that isn't read, with the path to it and its fault. A
//! second look at a value that a reader has refused.
#![tactic(auto)]

mod fields;
mod laws;
mod numbers;
mod repeats;
mod stop;
mod walk;

pub use laws::{faults_come_from_parts, worked_repeats};
pub use stop::{Step, Stop};
pub use walk::first_stop;
