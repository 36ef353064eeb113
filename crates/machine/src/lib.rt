//! Transactions on tables: what a contract's datum is on the ledger, how it is spelled in bytes, and what a transaction does
//! to it.
#![tactic(auto)]

mod datum;
mod machine;
mod spelling;

pub use contract_bytes;
pub use datum::Datum;
pub use machine::{compute, matching_case};
pub use semantics;
pub use semantics::evaluation;
pub use table;
