//! The ledger by indexes: what is unspent and with which data, which ids are in use, what is published, and where
//! threads start and go on, after outputs, publications and accepted transactions that were handed in, in order.
//!
//! `specs/Moves.antt` says where the moves of contracts lead, `specs/Data.antt` which data were brought for contract
//! outputs, `specs/Contents.antt` what is indexed of a past, and `specs/Laws.antt` that the rules and the threads read
//! the same there as of the past. What is handed in is only added; `cut` takes back what came since the last `settle`,
//! and `settle` lets go of what was spent. Each look-up answers by the definitions at every moment, also in between.
#![tactic(auto)]

mod additions;
mod by_lock;
mod holes;
mod index;
mod index_at;
mod laws;
mod lock_name;
mod moves;
mod naming;
mod objects;
mod outputs;
mod parts;
mod places;
mod under_locks;

pub use index::Index;
pub use index_at::IndexAt;
pub use laws::{
    index_accepts_alike, index_follows_threads, index_publishes_alike, index_reads_alike,
    index_tells_data,
};
pub use ledger_spec::{
    Ask, Bundle, BundleFault, Call, Checked, CompileFault, Cont, Datum, Entry, GenesisFault,
    Instance, Judged, Lock, Look, Output, OutputRef, Published, Redeemer, Reply, Resolved, Scripts,
    Shared, Spend, StepRecord, Steps, ThreadOutput, Ticketed, Tx, TxFault, accepting_is_sound,
    accepts, checks_of, contracts_are_funded, contracts_end_threads, fits_spelling,
    found_is_enough, id_at_hand, is_accepted, is_advanced, judge, legal_histories_stand,
    names_are_single, outputs_are_spent_once, outputs_serve_one_contract, parties_are_authorised,
    publications_are_entries, publish, publishing_is_sound, resolve, starting_is_sound,
    starts_are_told, steps_stand_on_threads, threads_are_runs, threads_stay, ticket_in,
    tokens_are_preserved, tx_id, verdict_of, verdicts_in,
};
pub use moves::{Move, StepPlace};
