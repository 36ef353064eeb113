//! Marlowe contracts as trees, with their values, observations and actions; and what goes into a transaction and
//! comes out of it. The names and the states of the crates below are passed on.
#![tactic(auto)]

mod copies;
mod equal;
mod fault;
mod input;
mod interval;
mod laws;
mod outcome;
mod payment;
mod together;
mod transaction;
mod tree;
mod value;
mod warning;

pub use fault::SemFault;
pub use input::Input;
pub use interval::Interval;
pub use laws::contracts_are_trees;
pub use outcome::Outcome;
pub use payment::Payment;
pub use states::collections::{Boxed, Bytes, Entries, Items, Memory, Same, Text, TryClone};
pub use states::names::{Account, Bound, ChoiceId, Party, Payee, Token};
pub use states::{
    State, StateFault, collections, first_account_is_least, names, sets_are_found,
    totals_follow_sets,
};
pub use transaction::Transaction;
pub use tree::{Action, Case, Contract};
pub use value::{Observation, Value};
pub use warning::Warning;
