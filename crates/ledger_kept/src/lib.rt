//! What a ledger keeps of its history, so that a call costs what it asks and not what the history is long.
//!
//! The texts of transactions stand in the entries alone. A `Tally` has what the definitions read off all entries
//! (`Replay` of `ledger_spec`): the tick, the tickets, the pool, each seat's count, and where the texts of what is
//! pending and what was accepted stand; `keep` brings it on by one entry. A `Kept` lends it with the entries, and
//! clauses see the history. Beside it stands an index (`chain_index`), of which `IsIndexOf` says that it is of what
//! stands. `check_genesis` says with which outputs a history may begin.
#![tactic(auto)]

mod counts;
mod genesis;
mod kept;
mod rounds;
mod tally;
mod texts;

pub use chain_index::{
    Ask, Call, Checked, CompileFault, Cont, Datum, Entry, GenesisFault, Index, IndexAt, Instance,
    Judged, Lock, Look, Output, OutputRef, Published, Redeemer, Reply, Resolved, Scripts, Shared,
    Spend, StepPlace, StepRecord, Steps, ThreadOutput, Ticketed, Tx, TxFault, accepting_is_sound,
    checks_of, contracts_are_funded, contracts_end_threads, fits_spelling, found_is_enough,
    id_at_hand, index_accepts_alike, index_follows_threads, index_publishes_alike,
    index_reads_alike, index_tells_data, judge, legal_histories_stand, names_are_single,
    outputs_are_spent_once, outputs_serve_one_contract, parties_are_authorised,
    publications_are_entries, publish, publishing_is_sound, resolve, starting_is_sound,
    starts_are_told, steps_stand_on_threads, threads_are_runs, threads_stay, tokens_are_preserved,
    tx_id, verdict_of,
};
pub use genesis::check_genesis;
pub use kept::Kept;
pub use tally::{Tally, Waiting};
