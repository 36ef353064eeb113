//! The state of a contract: what its accounts hold, the numbers that were chosen, the values that are bound
//! to names, and the minimum time.
#![tactic(auto)]

mod equal;
mod fault;
mod laws;
mod start;
mod state;

pub use fault::StateFault;
pub use laws::{first_account_is_least, sets_are_found, totals_follow_sets};
pub use names;
pub use names::collections;
pub use state::State;
