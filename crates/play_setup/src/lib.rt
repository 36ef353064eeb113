//! How a play is set up: from a scenario to a ledger on which its contracts are published and its threads started, and to
//! plans that name what stands there.
//!
//! `first_chain` begins the ledger with what the addresses have. `set_up` publishes the contracts and starts the threads by one
//! seat, in order; what that seat is told is defined in `specs/SetUp.antt`. `plan_on` names a plan's threads by their start
//! outputs, and its contracts by their currencies.
#![tactic(auto)]

mod fault;
mod genesis;
mod naming;
mod publishing;
mod refusals;
mod stage;
mod starts;

pub use fault::SetupFault;
pub use genesis::{first_chain, key_outputs};
pub use json_read_scenarios::{read_scenario, read_scenario_within, scenario_from_json};
pub use marlowe_refusals::json_fault_name;
pub use naming::plan_on;
pub use parties::BuildFault;
pub use play_lines::{ThreadLine, played_lines};
pub use setup_refusals::{Cause, SetupRefusal, setup_line, setup_members};
pub use stage::{Stage, set_up};
