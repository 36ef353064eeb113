//! One ledger for many threads: the lock, the seats by which threads call, the receipts of what they were told, and what the
//! history is once all seats are back.
//!
//! `Opening::new` takes a chain without entries and makes what names a session; `open` gives the hub and its seats. Each thread has a seat, and calls
//! through the shared hub with it (`call`, `admit`, `round`). `close` takes all seats back: then the history is legal, each seat's entries are just
//! what that seat was told, and each receipt's entry stands at its place (`specs/Seats.antt`). docs/threads.md explains it.
#![tactic(auto)]

mod answer;
mod at_hub;
mod carried;
mod closed;
mod desk;
mod hub;
mod opening;
mod receipt;
mod seat;
mod session;

pub use answer::Answer;
pub use at_hub::SeatAtHub;
pub use chain::{
    Call, Chain, Checked, CompileFault, Entry, GenesisFault, Lock, Output, OutputRef, Published,
    Reply, StepRecord, Tx, TxFault, check_owned, publish,
};
pub use closed::Closed;
pub use collections::Memory;
pub use hub::Hub;
pub use ledger::{Bundle, Redeemer, Resolved, Scripts, Spend, Validator, Verdict};
pub use opening::Opening;
pub use parallel_check::{Gate, NoGate, check_all};
pub use receipt::Receipt;
pub use seat::Seat;
pub use session::{Session, Tokens};
