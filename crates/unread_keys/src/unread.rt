//! Members that aren't read.
use json_forms::Key;

/// A step from a value to a part of it that is read.
#[derive(Clone, Copy, Debug)]
pub enum Step {
    /// To the value behind a key: the last, where it stands again.
    Key(Key),
    /// To the item of a list at an index, from 0.
    Item(usize),
}

/// Why a member of an object isn't read.
#[derive(Clone, Copy, Debug)]
pub enum Why {
    /// Its key is none of the form by which the object is read.
    NoKey,
    /// A later member has its key: the last is read.
    Again,
}

/// A member of an object that isn't read.
#[derive(Drop)]
pub struct Unread<'a> {
    /// The way to its object, from the whole.
    pub path: Vec<Step>,
    /// Its index in the object, from 0.
    pub index: usize,
    /// How many tokens seem to stand before its key in the text.
    pub tokens: usize,
    /// Its key.
    pub key: &'a str,
    /// Why it isn't read.
    pub why: Why,
}
