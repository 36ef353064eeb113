//! Readers of scenarios: from a text or a JSON value to contracts, threads and plans, in which names have become places.
#![tactic(auto)]

mod contracts;
mod funds;
mod intent_forms;
mod intents;
mod lists;
mod members;
mod name_list;
mod numbers;
mod plan_forms;
mod scenarios;
mod threads;

pub use intent_forms::{IntentForm, intent_form};
pub use scenarios::{read_scenario, read_scenario_within, scenario_from_json};
