//! What is told of a part at which reading stops.
use json::Token;
use json_forms::Sort;
use json_read_names::JsonFault;
use json_stops::Step;
use text_spots::Spot;

/// A part at which reading stops.
#[derive(Clone, Copy)]
pub struct Told<'a, 'n> {
    /// The way to it, from the whole.
    pub path: &'a [Step],
    /// Where it begins in the text.
    pub spot: Spot,
    /// What it is read as.
    pub sort: Sort,
    /// Why it isn't.
    pub fault: JsonFault,
    /// The token with which it begins.
    pub token: Token<'a>,
    /// Its keys, where it is an object.
    pub keys: &'a [&'a str],
    /// Where the first begins, of an entry that is given again.
    pub first: Option<Spot>,
    /// The names that there are, of a name that none of them is.
    pub names: &'n [&'n str],
}
