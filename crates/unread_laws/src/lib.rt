//! A law of keys that aren't read: the form by which an object is read, as tables of forms have it, is the one that the readers take.
#![tactic(auto)]

mod laws;

pub use laws::readers_take_these_forms;
