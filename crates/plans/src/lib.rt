//! Scenarios: a ledger's beginning, contracts and threads of them, and the plans of the parties that play.
//!
//! A plan is generic in what names a thread and a contract. As it is read, a thread and a contract are places in the
//! scenario's lists; as it is played, a thread is named by its start output and a contract by its currency.
#![tactic(auto)]

mod intent;
mod plan;
mod scenario;

pub use intent::Intent;
pub use plan::Plan;
pub use scenario::{Funds, NamedContract, NamedThread, Scenario};
