//! Transactions one after another, from the texts of a contract, a state and the transactions to the lines of their outcomes.
#![tactic(auto)]

mod laws;
mod steps;
mod texts;

pub use laws::{a_trace_is_runs, one_transaction_is_a_run};
pub use marlowe_run::{
    JsonFault, PutJson, Readable, RunFault, TraceFault, beside_dropped, contract_from_json, has,
    outcome_text, printed_table, read_bytes, run_within, table_text_within,
    what_is_read_of_parts_can_be_written,
};
pub use steps::traced;
pub use texts::{Asked, Traced, trace};
