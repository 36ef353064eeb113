//! Places of a contract in the words of its JSON text, and other words that are printed beside them.
//!
//! A path is a list of steps into a contract. Its keys are those that the steps follow in the text, as `.when[0].then`; a
//! place ends with the first key of the form that stands there, as `.when[0].then.pay`. Both are printed as a text for people and
//! as a JSON list for tools. Beside them stand the names of alarms and warnings, and tokens as people read them.
#![tactic(auto)]

mod key;
mod keys;
mod laws;
mod printed;
mod words;

pub use key::{Key, key_word};
pub use keys::{keys_of, path_keys};
pub use laws::{keys_lead_through_json, places_begin_with_their_paths, worked_places};
pub use printed::{put_place, put_place_json};
pub use words::{kind_name, token_text, warning_name};
