//! Readers of cases and contracts.
#![tactic(auto)]

mod contracts;
mod laws;

pub use contracts::{case_from_json, contract_from_json};
pub use laws::contracts_are_read_by_form;
