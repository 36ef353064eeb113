//! What the command line of `marlowe` asks for.
//!
//! `words` are the words of the command line, and `line` is what they ask for: a `Task`, with the struct of its command, whose file has what
//! that command is asked.
#![tactic(auto)]

mod analyse;
mod arguments;
mod found;
mod next;
mod play;
mod run;
mod serve;
mod table;
mod task;
mod trace;

pub use analyse::AnalyseTask;
pub use arguments::{WordsFault, words};
pub use next::NextTask;
pub use play::PlayTask;
pub use run::RunTask;
pub use serve::ServeTask;
pub use table::TableTask;
pub use task::{Task, line};
pub use trace::TraceTask;
