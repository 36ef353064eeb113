//! What can be done with a contract next: which inputs its cases take, and until when it waits.
#![tactic(auto)]

mod behind;
mod cases;
mod claiming;
mod lane;
mod laws;
mod next;
mod offer;
mod reduction;
mod sharing;
mod waiting;

pub use behind::refused_behind;
pub use cases::offers;
pub use laws::{a_when_waits_to_the_last, one_input_is_computed_so, worked_inputs_next};
pub use next::{NextInputs, next_inputs};
pub use offer::Offer;
pub use reduction::{Opened, opening};
pub use waiting::waits_until;
