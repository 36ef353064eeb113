//! Amounts of tokens: what an output holds, and sums that no integer type holds.
//!
//! Clauses see a bundle as the finite map of its amounts, each above 0, so two bundles with the same
//! amount of each token are one.
#![tactic(auto)]

mod adding;
mod bundle;
mod equal;
mod fault;
mod laws;
mod taking;
mod total;
mod walk;
mod wide_sum;

pub use bundle::Bundle;
pub use fault::BundleFault;
pub use laws::{amounts_tell_bundles_apart, sums_are_of_each_token};
pub use total::{Holds, total_of};
pub use wide_sum::WideSum;
