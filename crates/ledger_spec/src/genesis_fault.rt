//! Why no chain begins with some outputs.
ghost use Rattle.std.specs.Prelude.{◌≡◌};
ghost use Rattle.ledger_spec.specs.declared.genesis_fault.GenesisFault.TheVariants as faults;

use std::alloc::AllocError;
use thiserror::Error;

/// Why no chain begins with some outputs. `NotKey` answers before `TooLarge`.
#[derive(Clone, Copy, Debug, PartialEq, Eq, Hash, Error)]
pub enum GenesisFault {
    /// An output has no key lock.
    #[error("an output is no key output")]
    NotKey = 1,
    /// The sum of a token is above 2^127 - 1.
    #[error("the sum of a token is too large")]
    TooLarge = 2,
    /// Memory was refused.
    #[error("memory was refused")]
    Memory = 3,
}

impl From<AllocError> for GenesisFault {
    ghost from_gives = { λ _ fault. fault ≡ faults.Memory };

    fn from(_error: AllocError) -> GenesisFault {
        GenesisFault::Memory
    }
}
