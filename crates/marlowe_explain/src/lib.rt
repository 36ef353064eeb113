//! Why a transaction is refused, as lines for people or as members of a JSON object for tools: `explained` takes a second look and
//! writes what `explain_transactions` finds. The lines stand behind the line of the refusal, each indented by two blanks, and what can be
//! done next by four: of the inputs the first twenty, and how many more there are.
#![tactic(auto)]

mod faults;
mod indent;
mod laws;
mod members;
mod paths;
mod said;
mod standing;
mod words;

pub use laws::{worked_explanation_lines, worked_explanation_members};
pub use marlowe_next::{
    Asked, Fault, JsonFault, Left, ReadFault, Readable, RunFault, TableFault, TraceFault, after,
    beside_dropped, contract_from_json, next, next_after, outcome_text, printed_table,
    read_transactions, state_from_json, state_with_texts_from_json, transaction_from_json,
    what_is_read_within_can_be_written,
};
pub use said::{explained, explained_behind};
