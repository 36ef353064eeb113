//! Where in a text something stands, and what is shown of a text on a line for people: a line and a column, a piece in which no
//! control character is raw, and a path without its middle.
#![tactic(auto)]

mod laws;
mod shown;
mod spots;

pub use laws::worked_spots;
pub use shown::{put_path_shown, text_shown};
pub use spots::{Spot, spot_at, spot_from};
