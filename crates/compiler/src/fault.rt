//! Why a contract isn't compiled.
ghost use Rattle.std.specs.Prelude.{◌≡◌};
ghost use Rattle.compiler.specs.declared.fault.CompileFault.TheVariants as faults;

use std::alloc::{AllocError, AllocFailed};
use thiserror::Error;

/// Why a contract isn't compiled. `TooDeep` answers before `TooManyNodes`.
#[derive(Clone, Copy, Debug, PartialEq, Eq, Hash, Error)]
pub enum CompileFault {
    /// The tree has more than 65,535 continuations, or more than 1,000,000 values, observations and cases.
    #[error("the contract has too many nodes")]
    TooManyNodes = 1,
    /// The tree is higher than 999.
    #[error("the contract is too deep")]
    TooDeep = 2,
    /// Memory was refused.
    #[error("memory was refused")]
    Memory = 3,
}

impl From<AllocError> for CompileFault {
    ghost from_gives = { λ _ fault. fault ≡ faults.Memory };

    fn from(_error: AllocError) -> CompileFault {
        CompileFault::Memory
    }
}

impl<T: Drop> From<AllocFailed<T>> for CompileFault {
    ghost from_gives = { λ _ fault. fault ≡ faults.Memory };

    fn from(_error: AllocFailed<T>) -> CompileFault {
        CompileFault::Memory
    }
}
