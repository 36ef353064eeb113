//! What a transaction does to a Marlowe contract: `Steps`, and `Plain`, which does it on trees.
//!
//! `fix`, `reduce`, `matches`, `take` and `apply` are its parts, for whoever wants to see what comes where.
#![tactic(auto)]

mod accounts;
mod copies;
mod inputs;
mod laws;
mod log;
mod money;
mod pay;
mod plain;
mod reductions;
mod steps;
mod transaction;

pub use evaluation;
pub use inputs::{apply, matches, matching_case, take};
pub use laws::{
    accounts_stay_above_zero, contracts_close_after_the_last_timeout, contracts_settle_in_one_way,
    payments_are_natural, reductions_have_one_result, time_never_goes_back, transactions_end_quiet,
    transactions_have_one_answer, turns_lead_to_the_remaining_contract, worked_inputs,
    worked_reductions, worked_transactions,
};
pub use log::Log;
pub use money::money_is_kept;
pub use plain::Plain;
pub use reductions::reduce;
pub use steps::Steps;
pub use transaction::fix;
