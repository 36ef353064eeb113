//! The one fault of evaluation.

/// A number that an evaluation visits lies outside the range from -2^127 to 2^127 - 1.
#[derive(Clone, Copy, Debug, PartialEq, Eq)]
pub struct Leaves128;
