//! Why a state can't be started.
ghost use Rattle.std.specs.Prelude.{◌≡◌};
ghost use Rattle.states.specs.declared.fault.StateFault.TheVariants as start;

use std::alloc::{AllocError, AllocFailed};
use thiserror::Error;

/// Why a list of accounts starts no state. Of several the first in this order answers.
#[derive(Clone, Copy, Debug, PartialEq, Eq, Hash, Error)]
pub enum StateFault {
    /// An amount is 0 or less.
    #[error("an amount is not above 0")]
    NotPositive = 1,
    /// Two amounts have one account.
    #[error("an account is given twice")]
    Repeated = 2,
    /// Memory was refused.
    #[error("memory was refused")]
    Memory = 3,
}

impl From<AllocError> for StateFault {
    ghost from_gives = { λ _ fault. fault ≡ start.Memory };

    fn from(_error: AllocError) -> StateFault {
        StateFault::Memory
    }
}

impl<T: Drop> From<AllocFailed<T>> for StateFault {
    ghost from_gives = { λ _ fault. fault ≡ start.Memory };

    fn from(_error: AllocFailed<T>) -> StateFault {
        StateFault::Memory
    }
}
