//! JSON texts as trees that borrow their texts from what was read.
#![tactic(auto)]

mod json_value;
mod look;
mod number;
mod owned;
mod read;
mod tree;

pub use json_value::JsonValue;
pub use owned::value_of_text;
pub use read::{Refusal, from_slice, from_slice_within};
pub use tree::Json;
