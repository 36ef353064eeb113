//! Why a value isn't written.
ghost use Rattle.std.specs.Prelude.{◌≡◌};
ghost use Rattle.json_write_contracts.specs.declared.fault.WriteFault.TheVariants as writing;

use std::alloc::{AllocError, AllocFailed};
use thiserror::Error;

/// Why a value isn't written.
#[derive(Clone, Copy, Debug, PartialEq, Eq, Hash, Error)]
pub enum WriteFault {
    /// A number of the contract, or of the part that is written, doesn't lie from -2^63 to 2^64 - 1.
    #[error("a number is out of range")]
    OutOfRange = 1,
    /// Memory was refused.
    #[error("memory was refused")]
    Memory = 2,
}

impl From<AllocError> for WriteFault {
    ghost from_gives = { λ _ fault. fault ≡ writing.Memory };

    fn from(_error: AllocError) -> WriteFault {
        WriteFault::Memory
    }
}

impl<T: Drop> From<AllocFailed<T>> for WriteFault {
    ghost from_gives = { λ _ fault. fault ≡ writing.Memory };

    fn from(_error: AllocFailed<T>) -> WriteFault {
        WriteFault::Memory
    }
}
