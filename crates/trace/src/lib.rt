//! Where transactions lead in a contract: one after another, each from where the one before it left the contract, and step
//! by step, with the place of each.
#![tactic(auto)]

mod laws;
mod refused;
mod sequence;
mod settling;
mod stepping;
mod steps;
mod trail;
mod warned;

pub use laws::{paths_lead, traces_join, warned_are_the_warnings, worked_traces};
pub use refused::Refused;
pub use sequence::{Left, after};
pub use settling::{Settled, settle};
pub use stepping::{Stepped, Stepping};
pub use steps::{is_quiet, push_step};
pub use warned::Warned;
