//! The contracts that a scenario gives as files, `{"file":PATH}`: where they are named, and the scenario's text with the text of each file in the
//! place of what names it.
#![tactic(auto)]

mod join;
mod laws;
mod named;
mod parts;
mod put;
mod same;
mod spots;

pub use join::{FileText, JoinFault, with_files};
pub use laws::worked_files;
pub use named::{FileName, files_of};
