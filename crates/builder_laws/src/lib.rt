//! What holds of the layout of every request that nothing hinders: laws, each the contract of a function that does
//! nothing.
#![tactic(auto)]

mod accepted;
mod change;
mod threads;

pub use accepted::{
    bytes_tell_accepted_apart, claims_are_accepted, parts_are_accepted, starts_are_accepted,
};
pub use change::change_is_the_rest;
pub use ledger_spec::{
    Ask, Bundle, Checked, CompileFault, Datum, Lock, Look, Output, OutputRef, Plain, Published,
    Resolved, Scripts, Shared, Spent, StepAnswer, StepFault, Tx, TxFault, Unspent, Validator,
    Verdict, check, check_owned, has_signed, publish,
};
pub use threads::{anyone_closes_after_the_last_timeout, shown_threads_are_current};
