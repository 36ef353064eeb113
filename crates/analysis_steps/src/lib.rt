//! What each step of a contract does to what is known of a run.
//!
//! There is a function for each step: a Pay, a Let, an Assert, an observation, a deposit, a choice, the times of a When,
//! the start and the end. Each returns the alarms of the step, and what is known after it. Its clause is that of the
//! step in `analysis_walk` (`PaysSo` and those beside it): it holds for every run that satisfies what is known.
#![tactic(auto)]

mod alarms;
mod amounts;
mod branches;
mod choices;
mod deposits;
mod earlier;
mod ends;
mod moved;
mod notifies;
mod reductions;
mod starts;
mod times;

pub use branches::branch;
pub use choices::{MOST_CASES, choose};
pub use deposits::deposit;
pub use ends::{close, close_beside};
pub use notifies::notify;
pub use reductions::{assert, bind, pay};
pub use starts::start;
pub use times::{later, time_out, wait};
