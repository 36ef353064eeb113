//! One transaction, from the texts of a contract, a state and a transaction to the text of the outcome; and the table of a
//! contract, from text to text. Also how transactions begin, and the line of an outcome, for whoever computes more than one.
#![tactic(auto)]

mod dropped;
mod laws;
mod outcomes;
mod readable;
mod start;
mod tables;
mod transaction;

pub use compiler::{CompileFault, compile};
pub use contract_json::{
    PutJson, Transaction, WriteFault, action_from_json, bound_from_json, case_from_json,
    choice_id_from_json, contract_from_json, fitting_to_json, input_from_json,
    observation_from_json, party_from_json, payee_from_json, read_contract, read_contract_within,
    read_input, read_state, read_transaction, state_from_json, state_is_read_back,
    state_with_texts_from_json, to_json, token_from_json, transaction_from_json, value_from_json,
    what_is_read_of_parts_can_be_written, what_is_read_within_can_be_written, write_contract,
    write_outcome,
};
pub use dropped::beside_dropped;
pub use json_read_names::{ContractForm, JsonFault, contract_form, has, read_bytes, read_time};
pub use json_write_contracts::{Term, term_text};
pub use laws::{parts_can_be_written, runs_within_127};
pub use marlowe_refusals::{
    Fault, RunFault, TableFault, TraceFault, compile_fault_name, json_fault_name, refusal,
    write_fault_name,
};
pub use outcomes::outcome_line;
pub use readable::Readable;
pub use semantics::evaluation::{Parts, Wait};
pub use semantics::{Plain, Steps};
pub use start::read_start;
pub use tables::{printed_table, table_text, table_text_within};
pub use transaction::{outcome_text, run, run_with_texts, run_within};
