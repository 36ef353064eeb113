//! Places at which reading stops.
use json_forms::{Key, Sort};
use json_read_names::JsonFault;

/// A step from a JSON value to a part of it.
#[derive(Clone, Copy, Debug)]
pub enum Step {
    /// To the value behind a key.
    Key(Key),
    /// To the item of a list at an index, from 0.
    Item(usize),
}

/// Where reading stops, and why.
#[derive(Drop)]
pub struct Stop {
    /// The way to the part, from the whole.
    pub path: Vec<Step>,
    /// What the part is read as.
    pub sort: Sort,
    /// Why it isn't.
    pub fault: JsonFault,
}
