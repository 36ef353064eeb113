//! Runs that are played again.
//!
//! A run that is said to end in an alarm is told only after it was played again by the transaction function, one
//! transaction after another: `replayed` hands it out only where it ends so, and at the place of the alarm. So nothing has
//! to be believed of how it was found.
#![tactic(auto)]

mod kinds;
mod placed;
mod playing;
mod tries;

pub use kinds::kind_of;
pub use playing::{ends_at, replayed};
