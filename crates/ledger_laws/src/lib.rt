//! What holds of everything that a ledger accepted, however it came by it: laws over plain lists of
//! transactions, each admitted on what came before it. Each is the contract of a function that does
//! nothing; a ledger that accepts what `eutxo` lets pass calls on them.
#![tactic(auto)]

mod ledger;
mod threads;

pub use ledger::{
    accepting_is_sound, contracts_end_threads, names_are_single, outputs_are_spent_once,
    outputs_serve_one_contract, publishing_is_sound, starting_is_sound, steps_stand_on_threads,
    threads_stay, tokens_are_preserved, worked_threads,
};
pub use threads::{contracts_are_funded, parties_are_authorised, threads_are_runs};
