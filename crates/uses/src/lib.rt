//! What a caller writes, and what it is promised: six callers of the library, each short, and each with the clauses
//! that the calls below give it.
//!
//! `close_thread` closes a contract after its last timeout, `check_one` judges one transaction without a ledger,
//! `escrow` takes a contract from its publishing to its end, `claim_now` collects payouts, `check_lock` judges by
//! a script that isn't Marlowe's, and `next_after` asks what can be done with a contract after some transactions.
//! `step_now` is the step by which the first and the third end. What their clauses say is defined in
//! `specs/Uses.antt`, and for the last two in `specs/TimeLocks.antt` and `specs/WhatsNext.antt`.
#![tactic(auto)]

mod claim;
mod close;
mod deal;
mod fault;
mod one_check;
mod other_script;
mod plain_calls;
mod step;
mod whats_next;

pub use claim::claim_now;
pub use close::close_thread;
pub use deal::{Deal, escrow};
pub use fault::UseFault;
pub use one_check::check_one;
pub use other_script::{TimeLock, check_lock};
pub use step::step_now;
pub use whats_next::{NextFault, next_after};
