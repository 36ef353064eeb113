//! States and outcomes as JSON, written straight to a text.
#![tactic(auto)]

mod lists;
mod outcomes;
mod payments;
mod rows;
mod state_forms;
mod warnings;

pub use outcomes::put_outcome;
pub use payments::put_payment;
pub use state_forms::put_state;
pub use warnings::put_warning;
