//! What is told of a play, as objects of JSON for tools: one on a line of its own for each entry, for an intent on which nothing was built, for
//! each thread, and for each holding.
//!
//! `entry_objects` has a text for each entry, behind which others are put, and `noted_objects` joins them. The files of `specs/` have the
//! forms.
#![tactic(auto)]

mod entries;
mod holdings;
mod intents;
mod threads;
mod worked;

pub use entries::entry_objects;
pub use holdings::holding_objects;
pub use intents::{intent_members, unbuilt_object};
pub use json_write_contracts::term_text;
pub use marlowe_refusals::{Fault, RunFault, TableFault, TraceFault, json_fault_name, refusal};
pub use plans::{Intent, NamedContract, NamedThread, Plan, Scenario};
pub use play_holdings::{Holding, holding_lines};
pub use play_notes::{
    intent_text, is_no_thread, noted_lines, notes_of, put_behind, thread_name, unbuilt_text,
};
pub use step_notes::{Spelling, Step, step_text};
pub use threads::noted_objects;
pub use worked::worked_objects;
