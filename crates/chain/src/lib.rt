//! A ledger of one thread: calls, replies, and the history of both.
//!
//! A history is a list of entries, each a call and its reply. What it means is defined in `ledger_spec`: what stands
//! after it, what each call is answered then (the table of calls), and that a history is legal where each entry has
//! the reply of the table. A `Chain` makes the entries one by one, so that its history is always legal; and both
//! halves of the headline (`Headline` of `ledger_spec`) hold of it, whatever was called: `Chain::history` and
//! `Chain::step` say so, and `both_halves_hold_of_legal_histories` says it of every legal history.
#![tactic(auto)]

mod chain;
mod laws;

pub use builder_laws::{
    Ask, Bundle, Checked, CompileFault, Datum, Lock, Look, Output, OutputRef, Plain, Published,
    Resolved, Scripts, Shared, Spent, StepAnswer, StepFault, Tx, TxFault, Unspent, Validator,
    Verdict, check, check_owned, has_signed, publish,
};
pub use chain::Chain;
pub use laws::both_halves_hold_of_legal_histories;
pub use ledger_views::{Call, Entry, GenesisFault, Reply, StepRecord, Ticketed};
