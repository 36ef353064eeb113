//! Why a use goes wrong.
use builder::BuildFault;
use chain::CompileFault;
use std::alloc::AllocError;
use thiserror::Error;

/// Why a contract isn't taken to its end.
#[derive(Debug, Drop, Error)]
pub enum UseFault {
    /// The contract isn't compiled, or memory for it was refused.
    #[error("the contract is not compiled: {0}")]
    NotCompiled(CompileFault),
    /// A transaction isn't built, or memory for it was refused.
    #[error("a transaction is not built: {0}")]
    NotBuilt(BuildFault),
    /// The chain refuses the start.
    #[error("the start is refused")]
    NotStarted,
}

impl From<CompileFault> for UseFault {
    fn from(fault: CompileFault) -> UseFault {
        UseFault::NotCompiled(fault)
    }
}

impl From<BuildFault> for UseFault {
    fn from(fault: BuildFault) -> UseFault {
        UseFault::NotBuilt(fault)
    }
}

impl From<AllocError> for UseFault {
    fn from(_error: AllocError) -> UseFault {
        UseFault::NotBuilt(BuildFault::Memory)
    }
}
