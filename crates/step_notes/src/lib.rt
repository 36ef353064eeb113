//! What is told of an accepted step: what it paid and warned of, and what its contract waits for now. As a line each, or as members of an
//! object.
//!
//! `step_text` computes the step once more, from the table and the datum that a look showed and from what the step brought.
//! `specs/StepLines.antt` has the lines, `specs/StepObjects.antt` the members, and `specs/Steps.antt` both.
#![tactic(auto)]

mod cases;
mod indent;
mod objects;
mod spelling;
mod steps;
mod terms;
mod words;
mod worked;

pub use objects::comma;
pub use spelling::Spelling;
pub use steps::{Step, step_text};
pub use worked::worked_steps;
