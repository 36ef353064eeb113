//! Many transactions checked at once, each with its resolution.
//!
//! `check_all` deals the jobs in turn to so many workers, each of which checks its own one after another, and
//! gathers the checks in the order of the jobs. A check depends on the transaction and its resolution alone,
//! so the answer is that of checks one by one, whatever runs at once and in whichever order; a `Gate`, by
//! which tests see what runs at once, changes no answer either. docs/threads.md says what is proved of it.
#![tactic(auto)]

mod batch;
mod dealing;
mod gate;
mod workers;

pub use gate::{Gate, NoGate};
pub use workers::check_all;
