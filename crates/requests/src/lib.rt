//! A line of a stream as a request: which one it is, and the id under which it is answered.
#![tactic(auto)]

mod ids;
mod kind;
mod lines;
mod owned;
mod sole;
mod worked;

pub use ids::id_text;
pub use kind::{Kind, is_object, request};
pub use lines::line_json;
pub use owned::value_of;
pub use sole::sole_member;
pub use worked::worked_requests;
