//! What a request for a transaction is, what hinders it, and how it is laid out (The Extended UTXO Model, "Extended
//! UTXO model: EUTXO").
//!
//! A step of a thread, steps of several threads in one transaction, a start of a contract and a claim of payouts are
//! asked for with outputs that are offered beside. `hinders_step`, `hinders_steps`, `hinders_start` and `hinders_claim`
//! of `specs/` give the first clause that a request fails, and `layout_step`, `layout_steps`, `layout_start` and
//! `layout_claim` its transaction. A step is, by definition, steps of one part. `BuildFault` is how a refusal is told.
#![tactic(auto)]

mod fault;

pub use contract::collections::{Memory, Text};
pub use fault::BuildFault;
pub use ledger::{
    Ask, Bundle, BundleFault, Call, Checked, CompileFault, Cont, ContractLock, Datum, Entry, Holds,
    Instance, Judged, Ledger, Lock, Look, Output, OutputRef, PayoutLock, Places, Plain, Published,
    Redeemer, Reply, Resolved, Resolves, Scripts, Shared, Spend, Spent, StepAnswer, StepFault,
    Steps, ThreadOutput, Ticketed, Tx, TxFault, Unspent, Validator, Verdict, WideSum, accepts,
    actor, check, check_owned, checks_of, compute, continuation,
    contracts_close_after_the_last_timeout, datum_hash, difference, fits_spelling, found_is_enough,
    found_tells_places, has_signed, holds_sums, id_at_hand, is_accepted, is_advanced, judge,
    money_is_kept, no_transaction_begins_another, only, payments_are_natural, publish,
    published_are_tables, published_tell_contracts_apart, put_due, resolve, sum, ticket_in,
    transactions_end_quiet, tx_id, verdict_of, verdicts_in, with_datum,
};
