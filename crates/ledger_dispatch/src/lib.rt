//! What each call of a ledger is answered, and what it accepts and publishes; and what each question is answered.
//!
//! The table of calls (`Calls` of `ledger_spec`) gives the reply of each call from what stands after a history, and
//! nothing else: `answer` finds it in what a ledger keeps (`Kept`), which is lent, and in the index beside it, to which
//! it adds what the call accepts and publishes. Where memory is refused it cuts the index back. `resolution` and `front` answer what is asked without an entry: what is found of what a transaction
//! names, and the same for the first of the pending transactions.
#![tactic(auto)]

mod dispatch;
mod questions;

pub use dispatch::answer;
pub use questions::{front, resolution};
