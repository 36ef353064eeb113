//! Numbers of continuations.
use names::collections::{Memory, Same, TryClone};

/// The number of a continuation in a table.
#[derive(Clone, Copy, Debug, PartialEq, Eq, PartialOrd, Ord, Hash, Drop)]
pub struct Cont(pub u32);

impl TryClone for Cont {
    fn try_clone(&self) -> Result<Cont, Memory> {
        Ok(*self)
    }
}

impl Same for Cont {
    fn same(&self, other: &Cont) -> bool {
        *self == *other
    }
}
