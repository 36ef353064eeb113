//! What is told of a part of a text at which reading stops: a record, `Told`, and its two spellings. `told_lines` writes it as lines for
//! people, and `told_members` as members of a JSON object for tools; `part_members` has those that need no text.
#![tactic(auto)]

mod hints;
mod laws;
mod lines;
mod members;
mod part;
mod pieces;
mod words;

pub use laws::{told_parts_are_objects, told_texts_have_more, worked_lines, worked_members};
pub use lines::{put_spot, told_lines};
pub use members::{part_members, put_spot_members, told_members};
pub use part::Told;
pub use pieces::beside;
