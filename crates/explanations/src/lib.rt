//! Why a contract, a transaction, a state or a scenario can't be read: where reading stops, what was wanted there and what stands there,
//! in lines for people or as members of a JSON object for tools.
#![tactic(auto)]

mod broken;
mod explain;
mod how;
mod indexes;
mod laws;
mod standing;
mod text_lines;

pub use broken::{MAX_DEPTH, NoJson};
pub use explain::{explained, explained_fault, explained_scenario, explained_value};
pub use how::How;
pub use indexes::keys_in;
pub use json_forms::{Numbers, ScenarioSort, Sort};
pub use json_members::{Spelling, put_next};
pub use json_read_names::{JsonFault, has, json_of, json_within};
pub use json_stops::{Stop, first_stop};
pub use json_tree::{Json, JsonValue, from_slice};
pub use laws::worked_texts;
pub use part_tokens::beginning_of;
pub use scenario_stops::first_stop as scenario_stop;
pub use text_spots::Spot;
pub use told_parts::{Told, part_members};
