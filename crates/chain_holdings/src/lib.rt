//! Who holds what after a chain's history.
//!
//! `holdings_after` goes over all outputs that there ever were, keeps those that are unspent, and sums what they hold
//! (`play_holdings`). Where threads stand it looks up on a second chain with the same history, since a look adds an entry.
//! `specs/After.antt` says what comes out.
#![tactic(auto)]

mod accepted;
mod again;
mod ends;
mod holdings;
mod unspent;

pub use holdings::holdings_after;
