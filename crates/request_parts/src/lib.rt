//! What stands in a request of a stream, why it is refused, and the line of its answer.
#![tactic(auto)]

mod answer_lines;
mod parts;
mod refusal;
mod refused;
mod text;
mod transactions;

pub use answer_lines::{ok_answer, reasoned_answer, refused_answer, traced_answer, without_feed};
pub use parts::{
    Given, contract_at, input_at, name_of, party_at, party_if, state_at, time_at, token_at,
    transaction_at,
};
pub use refusal::{LineFault, Part, Refusal};
pub use text::text_of;
pub use transactions::transactions_at;
