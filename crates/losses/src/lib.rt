//! What a party can lose: what it brings into a contract, less what it is paid.
//!
//! `specs/Losses.antt` says what that means, of all runs that leave nothing in the contract. `worked_losses` has runs that
//! are counted on the definitions.
#![tactic(auto)]

mod laws;
mod loss;

pub use laws::worked_losses;
pub use loss::Loss;
