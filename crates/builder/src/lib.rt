//! Transactions for a request: a step of a thread, steps of several threads at once, a start of a contract, a claim of
//! payouts (The Extended UTXO Model, "Extended UTXO model: EUTXO").
//!
//! What hinders a request, and how its transaction is laid out, is defined in `builder_spec`. Each call answers the
//! fault of the first clause that the request fails, or its layout, unless memory is refused. None of them reads a
//! ledger: they build on what was seen of one.
#![tactic(auto)]

mod beside;
mod claim;
mod fitting;
mod fresh;
mod funds;
mod inputs;
mod outputs;
mod parts;
mod payouts;
mod start;
mod step;
mod steps;
mod thread;

pub use builder_spec::{Ask, BuildFault, Look, PayoutLock, ThreadOutput, Unspent};
pub use claim::build_claim;
pub use parts::{Part, resolve_parts};
pub use start::build_start;
pub use step::build_step;
pub use steps::build_steps;
