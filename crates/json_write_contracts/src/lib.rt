//! Names, values, actions and contracts as JSON, written straight to a text; and single terms as compact JSON, for texts that
//! are no JSON themselves: tables as they are printed, and the lines of a play.
#![tactic(auto)]

mod actions;
mod contracts;
mod fault;
mod members;
mod name_forms;
mod numbers;
mod terms;
mod values;

pub use actions::{put_action, put_bound};
pub use contracts::{put_case, put_contract};
pub use fault::WriteFault;
pub use members::{end_with_one, end_with_three, put_member, put_pair};
pub use name_forms::{
    put_bytes, put_choice_id, put_party, put_payee, put_text, put_token, symbol_is_bytes,
};
pub use numbers::{put_amount, put_number, put_time};
pub use terms::{Term, term_text};
pub use values::{put_observation, put_value, word};
