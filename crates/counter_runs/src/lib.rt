//! Runs that end in an alarm.
//!
//! For an alarm that an analysis raises, `run_to` looks for a run from the start state that comes to its place and
//! warns there. Nothing of how it looks has to be believed: a run is told only after the crate `replay` has played it again.
//! `can_close` plays one run that closes a contract.
//!
//! The search follows the place, from the contract down, and has a choice of intervals, of numbers and of nothing
//! else: what is deposited is what is asked. Where it has a choice, it takes the first candidate; then runs with one
//! other candidate, with two, and so on, in a fixed order. It ends when the work that it was given is done: what a step
//! costs is weighed before it is taken, so a search takes no longer than its work allows.
#![tactic(auto)]

mod closing;
mod closing_runs;
mod search;
mod walk;

pub use closing::can_close;
pub use closing_runs::ClosingRuns;
pub use run_ways::is_written;
pub use search::run_to;
