//! Lines that can't be answered.
use contract::Memory;
use contract_json::JsonFault;
use hex::FromHexError;
use roles::CompileFault;
use std::alloc::{AllocError, AllocFailed};
use std::io;

/// Why a line isn't answered.
#[derive(Clone, Copy, Debug, PartialEq, Eq)]
pub enum RowFault {
    /// It isn't a line of this program's.
    NoSuchRow,
    /// A call of the library was refused memory, and nothing has changed: so the line can be taken once more.
    Refused,
    /// Memory was refused for something else.
    Memory,
    /// A file couldn't be read or written, or no thread could be had.
    Failed,
}

/// The answer of a call of the library. It is generic in it, so that no proof walks through its drop.
pub fn called<T: Drop>(answer: Result<T, Memory>) -> Result<T, RowFault> {
    match answer {
        Ok(answer) => Ok(answer),
        Err(_) => Err(RowFault::Refused),
    }
}

impl From<AllocError> for RowFault {
    fn from(_error: AllocError) -> RowFault {
        RowFault::Memory
    }
}

impl<T: Drop> From<AllocFailed<T>> for RowFault {
    fn from(_error: AllocFailed<T>) -> RowFault {
        RowFault::Memory
    }
}

impl From<io::Error> for RowFault {
    fn from(error: io::Error) -> RowFault {
        match error.kind() {
            io::ErrorKind::OutOfMemory => RowFault::Memory,
            _ => RowFault::Failed,
        }
    }
}

impl From<JsonFault> for RowFault {
    fn from(fault: JsonFault) -> RowFault {
        match fault {
            JsonFault::Memory => RowFault::Memory,
            _ => RowFault::NoSuchRow,
        }
    }
}

impl From<FromHexError> for RowFault {
    fn from(error: FromHexError) -> RowFault {
        match error {
            FromHexError::OutOfMemory => RowFault::Memory,
            _ => RowFault::NoSuchRow,
        }
    }
}

impl From<CompileFault> for RowFault {
    fn from(fault: CompileFault) -> RowFault {
        match fault {
            CompileFault::Memory => RowFault::Refused,
            _ => RowFault::NoSuchRow,
        }
    }
}
