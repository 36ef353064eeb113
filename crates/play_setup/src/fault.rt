//! Why a play isn't set up.
use contract::Memory;
use setup_refusals::SetupRefusal;
use std::alloc::{AllocError, AllocFailed};

/// Why a setup ends before its end.
#[derive(Drop)]
pub enum SetupFault {
    /// It has a fault: what is refused, and why.
    Refused(SetupRefusal),
    /// Memory was refused.
    Memory,
}

// The fault of a setup with this refusal, or that there was no memory for it.
pub(crate) fn refused(refusal: Result<SetupRefusal, Memory>) -> SetupFault {
    match refusal {
        Ok(refusal) => SetupFault::Refused(refusal),
        Err(_) => SetupFault::Memory,
    }
}

impl From<AllocError> for SetupFault {
    fn from(_error: AllocError) -> SetupFault {
        SetupFault::Memory
    }
}

impl<T: Drop> From<AllocFailed<T>> for SetupFault {
    fn from(_error: AllocFailed<T>) -> SetupFault {
        SetupFault::Memory
    }
}
