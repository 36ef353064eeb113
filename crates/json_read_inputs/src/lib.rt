//! Readers of states, of amounts, and of inputs and transactions.
#![tactic(auto)]

mod amounts;
mod inputs;
mod members;
mod numbers;
mod rows;
mod state_forms;

pub use amounts::{accounts_from_json, amounts_from_json};
pub use inputs::{input_from_json, inputs_from_json, interval_from_json, transaction_from_json};
pub use state_forms::{state_from_json, state_with_texts_from_json};
