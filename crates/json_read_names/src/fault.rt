//! Why a text has no reading.
ghost use Rattle.std.specs.Prelude.{◌≡◌};
ghost use Rattle.json_read_names.specs.declared.fault.JsonFault.TheVariants as reading;

use std::alloc::{AllocError, AllocFailed};
use thiserror::Error;

/// Why a text or a JSON value has no reading. The first fault that is met answers: an object's keys in
/// the order of its form, and lists from the front.
#[derive(Clone, Copy, Debug, PartialEq, Eq, Hash, Error)]
pub enum JsonFault {
    /// The text isn't JSON in UTF-8, or nests deeper than 127.
    #[error("the text is not JSON")]
    NotJson = 1,
    /// The text is longer than 1,048,576 bytes. This is tested first.
    #[error("the text is too long")]
    TooLong = 2,
    /// The value has no form of its sort: a key is missing, or the kind of JSON is another.
    #[error("the value has no form that is known")]
    NoForm = 3,
    /// The number isn't a whole number from -2^63 to 2^64 - 1.
    #[error("the number is not whole")]
    NotWhole = 4,
    /// The time is above 2^63 - 1.
    #[error("the time is out of range")]
    OutOfRange = 5,
    /// The currency symbol isn't pairs of hexadecimal digits.
    #[error("the currency symbol is not hexadecimal")]
    BadHex = 6,
    /// The case has the hash of a contract in place of the contract.
    #[error("the case is merkleized")]
    Merkleized = 7,
    /// An account of the state holds 0 or less, or a key stands twice in one of its lists.
    #[error("the state has an account without money, or a key twice")]
    BadState = 8,
    /// Memory was refused.
    #[error("memory was refused")]
    Memory = 9,
}

impl From<AllocError> for JsonFault {
    ghost from_gives = { λ _ fault. fault ≡ reading.Memory };

    fn from(_error: AllocError) -> JsonFault {
        JsonFault::Memory
    }
}

impl<T: Drop> From<AllocFailed<T>> for JsonFault {
    ghost from_gives = { λ _ fault. fault ≡ reading.Memory };

    fn from(_error: AllocFailed<T>) -> JsonFault {
        JsonFault::Memory
    }
}
