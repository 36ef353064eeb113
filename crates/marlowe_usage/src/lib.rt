//! The command line of `marlowe` as `clap` reads it: its commands, with their arguments and help.
#![tactic(auto)]

mod commands;
mod draft;
mod kinds;

pub use commands::command_line;
