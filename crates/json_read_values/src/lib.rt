//! Readers of values, observations and actions.
#![tactic(auto)]

mod actions;
mod laws;
mod values;

pub use actions::action_from_json;
pub use laws::values_are_read_by_form;
pub use values::{observation_from_json, value_from_json};
