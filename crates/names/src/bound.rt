//! Bounds of choices.
use collections::{Memory, TryClone};

/// A range of numbers that a choice may take (Marlowe specification version 3, "Choices"): from `from`
/// to `to`, both included; none where `from` is above `to`.
#[derive(Clone, Copy, Debug, PartialEq, Eq, Hash, Drop)]
pub struct Bound {
    pub from: i128,
    pub to: i128,
}

impl TryClone for Bound {
    fn try_clone(&self) -> Result<Bound, Memory> {
        Ok(*self)
    }
}
