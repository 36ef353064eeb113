//! Runs that reach a bound.
//!
//! `specs/Reached.antt` says when a run reaches what a party is paid at most or at least, and what it can lose: each of its transactions
//! is accepted, and the sum is the bound. `reached_bounds_are_exact` says that no such bound can be sharpened. `reaches_most`,
//! `reaches_least` and `reaches_loss` play a run again.
#![tactic(auto)]

mod laws;
mod played;
mod reaching;
mod sums;

pub use laws::{reached_bounds_are_exact, worked_reaches};
pub use played::{Played, play};
pub use reaching::{loses, pays, reaches_least, reaches_loss, reaches_most};
