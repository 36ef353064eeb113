//! The rules of a ledger of outputs that carry data (The Extended UTXO Model, "Extended UTXO model: EUTXO"), over
//! any kind of script.
//!
//! A script is a `Validator`: it judges steps of its contracts, tells their starts and grants payouts. A
//! transaction with its resolution, which is what is found of the outputs that it spends and of the scripts
//! that it names, decides all rules but four: no inputs, too many, an output named twice; and then those on
//! signatures, redeemers, payouts, the steps or the starts, sums, and data. Each contract that is spent makes a block
//! of outputs, one block behind another from place 0 (`specs/Blocks.antt`). `check` judges by these and keeps
//! transaction, id, resolution, verdict and the places in which contracts go on as a `Checked`. The other four rules,
//! on what is unspent, accepted and published and on the tick, read the ledger at a moment; that judgement and what
//! is found at a moment are defined here (`specs/Judgement.antt`), and the law is that a `Checked` decides it.
#![tactic(auto)]

mod at_hand;
mod block_rules;
mod changes;
mod checked;
mod datum_rule;
mod judged;
mod laws;
mod local;
mod places;
mod preserved;
mod resolved;
mod scripts;
mod shared;
mod spent;
mod spent_rules;
mod step_fault;
mod step_rules;
mod steps;
mod tx_rules;
mod validator;

pub use at_hand::{checks_of, id_at_hand, kept_among, recheck, rejudge};
pub use checked::{Checked, check, check_owned, verdict_of};
pub use contract::collections::{Bytes, Memory, Text, TryClone};
pub use contract::names::{Token, compare_tokens};
pub use eutxo_types::{
    Bundle, BundleFault, Cont, ContractLock, Datum, Holds, Instance, Lock, Output, OutputRef,
    Plain, Redeemer, Spell, Spend, Steps, Tx, TxFault, Verdict, WideSum, compute,
    contracts_close_after_the_last_timeout, datum_hash, encode_contract, encode_tx, fits_spelling,
    money_is_kept, no_transaction_begins_another, payments_are_natural, put_bytes, total_of,
    transactions_end_quiet, turns_lead_to_the_remaining_contract, tx_id, with_datum,
};
pub use judged::Judged;
pub use laws::{
    blocks_tell_contracts_apart, checks_cross_threads, checks_decide,
    equal_resolutions_decide_alike, found_is_enough, found_tells_places,
    one_contract_is_judged_alone, sums_are_preserved, worked_blocks, worked_judgements,
};
pub use local::{judge_local, judge_spent};
pub use places::Places;
pub use resolved::{Resolved, copy_option};
pub use scripts::Scripts;
pub use shared::Shared;
pub use spent::Spent;
pub use step_fault::StepFault;
pub use tx_rules::{has_signed, tx_fault};
pub use validator::{StepAnswer, Validator};
