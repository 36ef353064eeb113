//! What can be done with a contract next, from the texts of a contract, a state and transactions to what is printed: lines for
//! people, or JSON for tools.
#![tactic(auto)]

mod answer;
mod asked;
mod cases;
mod laws;
mod told_here;

pub use analysis_spec::PathStep;
pub use answer::{next, next_after, next_there};
pub use asked::Asked;
pub use json_read_transactions::{ReadFault, read_transactions};
pub use laws::worked_answers;
pub use marlowe_run::{
    Fault, JsonFault, Readable, RunFault, TableFault, Term, TraceFault, beside_dropped,
    contract_from_json, outcome_text, printed_table, state_from_json, state_with_texts_from_json,
    term_text, transaction_from_json, what_is_read_within_can_be_written,
};
pub use places::{Key, keys_of, put_place, put_place_json, token_text};
pub use trace::{Left, after};
