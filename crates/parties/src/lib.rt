//! What one party of a play does: it goes through its plan, intent by intent, with a seat of its own at the hub that
//! all parties share.
//!
//! For a step, for steps of several threads at once or for a claim it looks, builds on what it was shown, checks
//! without the lock, and hands in; where another was faster, it begins again. Each call that it adds to its seat's
//! list is of its plan, what it hands in is the layout of an intent's request by the looks just before it, and it
//! keeps the receipts, and what hindered each intent that it left out (`specs/Plays.antt`). docs/threads.md explains it.
#![tactic(auto)]

mod acts;
mod building;
mod left_out;
mod means;
mod party;
mod turns;
mod watch;

pub use builder::{Ask, BuildFault, Look, build_start};
pub use hub::{
    Bundle, Call, Chain, Checked, Closed, CompileFault, Entry, Gate, GenesisFault, Hub, Lock,
    Memory, NoGate, Opening, Output, OutputRef, Published, Receipt, Redeemer, Reply, Resolved,
    Scripts, Seat, SeatAtHub, Session, Spend, StepRecord, Tx, TxFault, Validator, Verdict,
    check_all, check_owned, publish,
};
pub use left_out::LeftOut;
pub use party::Party;
pub use plans::{Funds, Intent, NamedContract, NamedThread, Plan, Scenario};
pub use watch::{NoWatch, Watch};
