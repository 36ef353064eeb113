//! Marlowe's scripts: published contracts, how they judge the transactions that step, start and pay out
//! their contracts, and the outputs that a step owes.
#![tactic(auto)]

mod amounts;
mod authorise;
mod laws;
mod owing;
mod published;
mod publishing;
mod script;
mod step;

pub use amounts::{holds_sums, only};
pub use authorise::actor;
pub use compiler::CompileFault;
pub use compiler::evaluation::{difference, sum};
pub use eutxo::{
    Bundle, BundleFault, Checked, Cont, ContractLock, Datum, Holds, Instance, Judged, Lock, Output,
    OutputRef, Places, Plain, Redeemer, Resolved, Scripts, Shared, Spell, Spend, Spent, StepAnswer,
    StepFault, Steps, Tx, TxFault, Validator, Verdict, WideSum, blocks_tell_contracts_apart, check,
    check_owned, checks_of, compute, contracts_close_after_the_last_timeout, copy_option,
    datum_hash, encode_tx, fits_spelling, found_is_enough, found_tells_places, has_signed,
    id_at_hand, judge_local, judge_spent, kept_among, money_is_kept, no_transaction_begins_another,
    payments_are_natural, recheck, sums_are_preserved, total_of, transactions_end_quiet,
    turns_lead_to_the_remaining_contract, tx_fault, tx_id, verdict_of, with_datum,
};
pub use laws::{
    owed_as_made, published_are_tables, published_cross_threads, published_tell_contracts_apart,
    sums_are_of_each_token, worked_steps,
};
pub use owing::{continuation, put_due};
pub use published::Published;
pub use publishing::publish;
