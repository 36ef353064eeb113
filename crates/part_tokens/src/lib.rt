//! Where a part of a JSON text begins, by the tokens before it, and the token with which it begins.
#![tactic(auto)]

mod find;
mod laws;

pub use find::{Beginning, beginning_of};
pub use laws::worked_parts;
