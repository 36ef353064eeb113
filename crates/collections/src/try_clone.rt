//! Copies that are the same value as their source.
ghost use Rattle.std.specs.Prelude.{◌≡◌, IfOk};

use std::alloc::AllocError;

/// Want of memory: a growth was refused, and nothing was changed.
pub type Memory = AllocError;

/// A value with a copy call.
pub trait TryClone {
    /// The same value once more, or refused for memory.
    fn try_clone(&self) -> Result<Self, Memory>
        ensures { IfOk result (λ copy. copy ≡ self.now) };
}

impl TryClone for u32 {
    fn try_clone(&self) -> Result<u32, Memory> {
        Ok(*self)
    }
}
