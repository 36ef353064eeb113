//! What a ledger is asked, by the rules and by its callers, and what it replies.
//!
//! A ledger is a `Ledger`: what the rules read of it at a moment (`Moment` of `eutxo`), however it is kept. `judge`
//! answers the fault of the first of all rules that refuses, or none. What a transaction names is found by `resolve` in
//! a `Resolves`: in a ledger, or in a look at one.
//!
//! Calls, the replies to them, the entries that keep both, and looks are plain data with copies; calls, replies and
//! entries have exact `==`. What a reply says (whether it advanced the tick, accepted a transaction, gave a ticket,
//! what the places of a round were answered) is defined in `specs/Replies.antt`.
//!
//! An `Ask` says what somebody wants to see, and a `Look` is what was shown: the tick, the unspent output of a
//! thread with the datum that its maker brought and what is published under its script, and the unspent outputs under
//! the asked locks.
//! `Look::resolve` finds there what a transaction names (`specs/Shown.antt`), so that the transaction can be
//! made and checked without the ledger, before it is handed in.
#![tactic(auto)]

mod ask;
mod call;
mod equal;
mod found;
mod ledger;
mod look;
mod reading;
mod rules;
mod shown;

pub use ask::{Ask, PayoutLock};
pub use call::{Call, Entry, Reply, Ticketed};
pub use found::resolve;
pub use ledger::{Ledger, Resolves};
pub use look::{Look, ThreadOutput, Unspent};
pub use reading::{accepts, is_accepted, is_advanced, ticket_in, verdicts_in};
pub use roles::{
    Bundle, BundleFault, Checked, CompileFault, Cont, ContractLock, Datum, Holds, Instance, Judged,
    Lock, Output, OutputRef, Places, Plain, Published, Redeemer, Resolved, Scripts, Shared, Spend,
    Spent, StepAnswer, StepFault, Steps, Tx, TxFault, Validator, Verdict, WideSum, actor, check,
    check_owned, checks_of, compute, continuation, contracts_close_after_the_last_timeout,
    datum_hash, difference, fits_spelling, found_is_enough, found_tells_places, has_signed,
    holds_sums, id_at_hand, money_is_kept, no_transaction_begins_another, only,
    payments_are_natural, publish, published_are_tables, published_tell_contracts_apart, put_due,
    sum, transactions_end_quiet, tx_id, verdict_of, with_datum,
};
pub use rules::judge;
