//! Who and what a contract speaks of: parties, tokens, accounts, payees, choices and their bounds. Flat values,
//! each equal to another exactly where the two are the same.
#![tactic(auto)]

mod account;
mod bound;
mod choice_id;
mod equal;
mod laws;
mod party;
mod payee;
mod token;

pub use account::Account;
pub use bound::Bound;
pub use choice_id::ChoiceId;
pub use collections;
pub use laws::{names_are_told_apart, names_stand_in_order};
pub use party::Party;
pub use payee::Payee;
pub use token::{Token, compare_tokens};
