//! Why a transaction is refused.
ghost use Rattle.std.specs.Prelude.{◌≡◌};
ghost use Rattle.contract.specs.declared.fault.SemFault.TheVariants as sem;

use std::alloc::{AllocError, AllocFailed};
use thiserror::Error;

/// Why a transaction is refused. The fault that stops the computation first answers.
#[derive(Clone, Copy, Debug, PartialEq, Eq, Hash, Error)]
pub enum SemFault {
    /// The interval ends before it starts.
    #[error("the interval ends before it starts")]
    InvalidInterval = 1,
    /// The interval ends before the state's minimum time.
    #[error("the interval lies in the past")]
    IntervalInPast = 2,
    /// A timeout lies within the interval.
    #[error("a timeout lies within the interval")]
    Ambiguous = 3,
    /// No case of the When matches an input, or the contract isn't a When.
    #[error("an input matches no case")]
    NoMatch = 4,
    /// Nothing was reduced and no input applied.
    #[error("the transaction does nothing")]
    Useless = 5,
    /// A number that was visited doesn't lie from -2^127 to 2^127 - 1.
    #[error("a number leaves 128 bits")]
    Leaves128 = 6,
    /// Memory was refused.
    #[error("memory was refused")]
    Memory = 7,
}

impl From<AllocError> for SemFault {
    ghost from_gives = { λ _ fault. fault ≡ sem.Memory };

    fn from(_error: AllocError) -> SemFault {
        SemFault::Memory
    }
}

impl<T: Drop> From<AllocFailed<T>> for SemFault {
    ghost from_gives = { λ _ fault. fault ≡ sem.Memory };

    fn from(_error: AllocFailed<T>) -> SemFault {
        SemFault::Memory
    }
}
