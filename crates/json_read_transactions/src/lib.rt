//! Reads many transactions from texts: each text is one transaction, a list of them, or a transaction on each line.
#![tactic(auto)]

mod fault;
mod laws;
mod lines;
mod taking;
mod texts;

pub use fault::ReadFault;
pub use laws::{texts_are_read_one_by_one, worked_readings};
pub use taking::MOST;
pub use texts::read_transactions;
