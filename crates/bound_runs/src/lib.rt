//! The search for runs that reach a bound.
//!
//! For what a party is paid at most and at least, and for what it can lose, `with_runs` looks for a run from the start state that
//! comes to just that sum. Nothing of how it looks has to be believed: a run is told only after `reached_bounds` has played it again.
//!
//! The search goes through the places of the contract at which it is closed, and at each takes the first numbers and times
//! that may be chosen on the way; then the last numbers; then such runs with one other candidate, and with two. All bounds
//! share one amount of work.
#![tactic(auto)]

mod closes;
mod seeking;
mod shown;
mod written;

pub use shown::{Shown, ShownLoss, ShownRange, with_runs};
