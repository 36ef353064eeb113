//! Rows of calls: what a line says to a chain or to the seats of a hub, and what is printed for their answers. The head of `main.rt`
//! of `rows_chain`, which plays such rows, has their words.
#![tactic(auto)]

mod asked;
mod built;
mod copies;
mod desk;
mod faults;
mod front;
mod offers;
mod parts;
mod played;
mod recorded;
mod replies;
mod session;
mod shown;
mod started;
mod taking;

pub use asked::history_lines;
pub use desk::Desk;
pub use played::{finish, name_written};
pub use replies::put_reply;
pub use session::Session;
pub use taking::{Calls, taken};
