//! What a command of `marlowe` prints on both streams, and its status: from the words of a command line and what the files of its
//! paths hold.
//!
//! `command` is the whole program but for its files and its streams. `run_shown` and its like are its tasks, from texts: a `Face` says whether
//! they are shown to people, with explanations behind a refusal or without, or to tools, as JSON. `serve_in_turn` answers a stream of requests,
//! and plays their scenarios. docs/formats.md has what is printed.
#![tactic(auto)]

mod answer;
mod command_line;
mod face;
mod files;
mod in_turn;
mod noted;
mod party;
mod printed;
mod said;
mod serving;
mod shown;
mod stack;
mod stops;
mod tasks;
mod texts;
mod told;

pub use answer::Command;
pub use command_line::{command, shown_on_streams};
pub use face::Face;
pub use files::{Joined, scenario_joined};
pub use marlowe_play::{Cause, NoWatch, PlayFault, SetupRefusal, Watch};
pub use printed::Printed;
pub use serve::Ended;
pub use serving::{answer_in_turn, serve_in_turn};
pub use shown::{analysis_shown, next_shown, play_shown, run_shown, table_shown, trace_shown};
pub use stack::STACK;
pub use texts::Texts;
