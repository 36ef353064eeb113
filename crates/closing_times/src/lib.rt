//! From when on all can be taken out of a contract.
//!
//! `specs/Closing.antt` says what that means: after any run, whoever hands in a transaction without inputs, from that time
//! on, leaves nothing in the contract. `last_timeout` tells the time, and `contracts_close_from_their_last_timeout` says
//! that it is one.
#![tactic(auto)]

mod last;
mod laws;

pub use last::last_timeout;
pub use laws::{contracts_close_from_their_last_timeout, worked_closings};
