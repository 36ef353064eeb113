//! Outputs and the transactions that spend and make them, why a transaction is refused, its id,
//! and the digest of a datum.
//!
//! Clauses see each of these values as plain data: an amount as its finite map, a state as its maps, a list
//! as its items. So two transactions are equal there exactly when they are the same, and an id is a function
//! of what a transaction says.
#![tactic(auto)]

mod encode;
mod equal;
mod fault;
mod fits;
mod id;
mod laws;
mod lock;
mod output;
mod output_ref;
mod redeemer;
mod spend;
mod tx;
mod verdict;

pub use bundle::{Bundle, BundleFault, Holds, WideSum, total_of};
pub use encode::encode_tx;
pub use fault::TxFault;
pub use fits::fits_spelling;
pub use id::{datum_hash, tx_id};
pub use laws::{no_transaction_begins_another, worked_transactions};
pub use lock::{ContractLock, Lock, PayoutRole};
pub use machine::contract_bytes::{Spell, encode_contract, put_bytes};
pub use machine::semantics::{
    Plain, Steps, contracts_close_after_the_last_timeout, money_is_kept, payments_are_natural,
    transactions_end_quiet, turns_lead_to_the_remaining_contract,
};
pub use machine::table::Cont;
pub use machine::{Datum, compute};
pub use output::Output;
pub use output_ref::OutputRef;
pub use redeemer::Redeemer;
pub use spend::Spend;
pub use tx::{Instance, Tx, with_datum};
pub use verdict::Verdict;
