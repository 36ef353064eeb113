//! Scenarios whose contracts stand in files of their own: which files a scenario names, where their paths lead, the scenario's text with the files in
//! their places, and why there is none.
#![tactic(auto)]

mod fault;
mod files;
mod path;
mod refusals;
mod worked;

pub use fault::FilesFault;
pub use file_parts::FileName;
pub use files::{files_of, first_unread, with_files};
pub use path::path_beside;
pub use refusals::{files_members, files_refusal, files_status};
pub use worked::worked_refusals;
