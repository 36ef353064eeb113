//! What a ledger means: definitions alone, in the order in which they are read.
//!
//! `specs/Replay.antt` says what stands after the entries of a history, `specs/Genesis.antt` with which outputs one
//! may begin, `specs/Views.antt` what a look shows, `specs/Records.antt` what the records of a thread say,
//! `specs/Calls.antt` what each call is answered (the table of calls), `specs/Legal.antt` which histories are legal,
//! `specs/Publishing.antt` and `specs/Standing.antt` what stands after one in the words of its entries,
//! `specs/Open.antt` what a transaction finds where it is accepted, `specs/Shown.antt` that a look shows what was made
//! before it, and `specs/Headline.antt` the two halves of the headline. What a list of accepted transactions creates,
//! spends and leaves unspent, and the laws of such lists, are defined in `ledger_laws`; the rules in `eutxo`; how a
//! request is laid out in `builder_spec`.
//!
//! The code is two types that the definitions name, `GenesisFault` and `StepRecord`, and laws of legal histories.
#![tactic(auto)]

mod genesis_fault;
mod laws;
mod step_record;

pub use builder_spec::{
    Ask, Bundle, BundleFault, Call, Checked, CompileFault, Cont, Datum, Entry, Instance, Judged,
    Ledger, Lock, Look, Output, OutputRef, PayoutLock, Places, Plain, Published, Redeemer, Reply,
    Resolved, Resolves, Scripts, Shared, Spend, Spent, StepAnswer, StepFault, Steps, ThreadOutput,
    Ticketed, Tx, TxFault, Unspent, Validator, Verdict, accepts, check, check_owned, checks_of,
    contracts_close_after_the_last_timeout, fits_spelling, found_is_enough, found_tells_places,
    has_signed, id_at_hand, is_accepted, is_advanced, judge, money_is_kept,
    no_transaction_begins_another, payments_are_natural, publish, resolve, ticket_in,
    transactions_end_quiet, tx_id, verdict_of, verdicts_in, with_datum,
};
pub use contract::collections::{Bytes, Items, Memory, Text, TryClone};
pub use genesis_fault::GenesisFault;
pub use laws::{legal_histories_stand, publications_are_entries, starts_are_told};
pub use ledger_laws::{
    accepting_is_sound, contracts_are_funded, contracts_end_threads, names_are_single,
    outputs_are_spent_once, outputs_serve_one_contract, parties_are_authorised,
    publishing_is_sound, starting_is_sound, steps_stand_on_threads, threads_are_runs, threads_stay,
    tokens_are_preserved,
};
pub use step_record::StepRecord;
