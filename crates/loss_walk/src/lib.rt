//! What each party can lose of each token, by a walk over a contract.
//!
//! The walk goes along a contract as that of `analysis` does, with what is known of runs in linear expressions. Where a deposit
//! is made, what it brings is taken off what its party was paid. So terms that are brought and paid back cancel. At each Close
//! the least of these differences is a floor: no run that closes the contract there goes below it. `losses_of` is what the
//! program calls.
//!
//! Where no deposit is waited for, or one party alone brings something and one other is paid of it, no walk is needed: what is
//! brought and doesn't come back goes to the other (`sole.rt`).
//!
//! `kept_up` asks the same walk of the runs in which a party keeps up (`keeping_up`). There a When that waits for the party isn't
//! left by its timeout, unless the party couldn't see that it would wait: its timeout isn't later than one before it, or a time is
//! read on the way (`quiet.rt`).
#![tactic(auto)]

mod asked;
mod asking;
mod brings;
mod floor;
mod keeping;
mod laws;
mod losing;
mod question;
mod quiet;
mod rows;
mod sole;
mod timeless;
mod walk;

pub use keeping::{MOST_ASKED, kept_up};
pub use laws::{nets_bound_kept, nets_bound_losses};
pub use losing::losses_of;
