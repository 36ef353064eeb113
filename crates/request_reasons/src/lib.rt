//! Why a request of a stream is refused, as members of a JSON object for tools: a second look at the request, made only once something is
//! refused. The first of its parts that isn't read is explained; where all are read it is the transaction that is refused, or the contract
//! that has no table. The members are those that the commands write, without what only a text has: a file, lines and columns.
#![tactic(auto)]

mod behind;
mod laws;
mod parts;
mod second_look;
mod transactions;
mod values;

pub use definitions::{DefineFault, Definition, Definitions};
pub use laws::worked_reasons;
pub use parts::scenario_told;
pub use refusal_reasons::{
    Asked, Behind, Json, JsonValue, Numbers, Over, ScenarioSort, Sort, Source, Sources, Spelling,
    from_slice, next, next_after, put_next, scenario_reasons, table_reasons, text_if,
};
pub use request_parts::{
    LineFault, Part, Refusal, contract_at, input_at, ok_answer, party_at, party_if,
    reasoned_answer, refused_answer, state_at, text_of, time_at, token_at, traced_answer,
    transaction_at, transactions_at, without_feed,
};
pub use requests::{Kind, id_text, is_object, line_json, request, sole_member, value_of};
pub use second_look::reasons;
