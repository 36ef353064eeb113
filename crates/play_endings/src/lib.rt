//! How each intent of a plan ended, as the entries of its seat tell it.
//!
//! `entries_of` gives the entries of a seat with their places, `endings` goes along them with the plan's intents, and `put_endings` puts
//! a line or an object for each intent. `put_steps` puts behind the entries that accepted its steps what these did. `specs/Endings.antt` says how an
//! intent ends, and `specs/EndingLines.antt` and `specs/StepTexts.antt` what is printed.
#![tactic(auto)]

mod ending;
mod lines;
mod placed;
mod steps;
mod taken;
mod walk;
mod worked;

pub use contract::collections::{Memory, Text};
pub use ending::{Ended, Ending, LeftIntent};
pub use ledger::{Entry, OutputRef, Published, Reply, Unspent};
pub use lines::put_endings;
pub use placed::{Placed, entries_of};
pub use play_objects::{
    Fault, Holding, Intent, NamedThread, Plan, RunFault, Scenario, Spelling, TableFault,
    TraceFault, entry_objects, holding_lines, holding_objects, is_no_thread, json_fault_name,
    noted_lines, noted_objects, notes_of, put_behind, refusal, unbuilt_object, unbuilt_text,
};
pub use steps::put_steps;
pub use taken::{Taken, taken_in};
pub use walk::{all_done, endings};
pub use worked::worked_endings;
