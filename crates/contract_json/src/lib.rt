//! Marlowe contracts, inputs, transactions, states and outcomes as JSON: read from texts and from `serde_json` values,
//! and written to them. `PutJson` says what each is written as.
#![tactic(auto)]

mod inputs;
mod laws;
mod put_json;
mod puts;
mod read_back;
mod texts;

pub use contract::Transaction;
pub use json_read_contracts::{case_from_json, contract_from_json, contracts_are_read_by_form};
pub use json_read_inputs::{
    input_from_json, state_from_json, state_with_texts_from_json, transaction_from_json,
};
pub use json_read_names::{
    JsonFault, bound_from_json, choice_id_from_json, party_from_json, payee_from_json,
    token_from_json,
};
pub use json_read_values::{
    action_from_json, observation_from_json, value_from_json, values_are_read_by_form,
};
pub use json_tree::JsonValue;
pub use json_write_contracts::WriteFault;
pub use laws::{
    contracts_within_127, what_is_read_can_be_written, what_is_read_of_parts_can_be_written,
    what_is_read_within_can_be_written,
};
pub use put_json::{PutJson, fitting_to_json, to_json};
pub use read_back::state_is_read_back;
pub use texts::{
    read_contract, read_contract_within, read_input, read_state, read_state_with_texts,
    read_transaction, write_contract, write_outcome,
};
