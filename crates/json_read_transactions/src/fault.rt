//! Why transactions aren't read.
ghost use Rattle.std.specs.Prelude.{◌≡◌};
ghost use Rattle.json_read_transactions.specs.declared.fault.ReadFault.TheVariants as reading;

use json_read_names::JsonFault;
use std::alloc::{AllocError, AllocFailed};

/// Why the transactions of texts aren't read. Of several faults the first that is met is told.
#[derive(Clone, Copy, Debug, PartialEq, Eq)]
pub enum ReadFault {
    /// The transaction of this number isn't one, for this reason. Numbers go from 1 through all texts.
    Text(u64, JsonFault),
    /// There are more than 10,000. All before the one that is too many are read.
    TooMany,
    /// Memory was refused.
    Memory,
}

impl From<AllocError> for ReadFault {
    ghost from_gives = { λ _ fault. fault ≡ reading.Memory };

    fn from(_error: AllocError) -> ReadFault {
        ReadFault::Memory
    }
}
