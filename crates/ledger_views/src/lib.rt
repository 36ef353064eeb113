//! What is shown of what stands: a look at the ledger, and the records of a thread.
//!
//! Both answer from what a ledger keeps (`ledger_kept`) and the index beside it (`chain_index`), which is of what
//! stands: no call goes over the history. A look has the unspent output of the asked thread, with what is published
//! under its script, and the unspent outputs under the asked locks in order of creation, as functions of what stands
//! (`Views` of `ledger_spec`). The records of a thread say what each of its transactions did to the contract (`Records`
//! of `ledger_spec`): the index tells the places of its transactions, and each step is computed anew on the table that
//! is published under the thread's script.
#![tactic(auto)]

mod links;
mod records;
mod start;
mod views;

pub use ledger_kept::{
    Ask, Call, Checked, CompileFault, Entry, GenesisFault, Index, IndexAt, Judged, Kept, Look,
    Output, OutputRef, Published, Reply, Resolved, Scripts, Shared, StepRecord, Tally, Ticketed,
    Tx, TxFault, accepting_is_sound, check_genesis, checks_of, contracts_are_funded,
    contracts_end_threads, fits_spelling, found_is_enough, id_at_hand, index_accepts_alike,
    index_publishes_alike, index_reads_alike, judge, legal_histories_stand, names_are_single,
    outputs_are_spent_once, outputs_serve_one_contract, parties_are_authorised,
    publications_are_entries, publish, publishing_is_sound, resolve, starting_is_sound,
    starts_are_told, steps_stand_on_threads, threads_are_runs, threads_stay, tokens_are_preserved,
    verdict_of,
};
pub use records::steps_of;
pub use views::show;
