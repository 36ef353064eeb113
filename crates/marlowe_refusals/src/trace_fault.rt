//! Why transactions one after another aren't computed.
ghost use Rattle.std.specs.Prelude.{◌≡◌};
ghost use Rattle.marlowe_refusals.specs.TraceFaults.{texts_fault, refused_fault};
ghost use Rattle.marlowe_refusals.specs.declared.fault.RunFault.TheVariants as run;
ghost use Rattle.marlowe_refusals.specs.declared.trace_fault.TraceFault.TheVariants as trace;

use crate::fault::RunFault;
use contract::SemFault;
use json_read_names::JsonFault;
use json_read_transactions::ReadFault;
use std::alloc::AllocError;

/// Why transactions one after another aren't computed, or where they end. Numbers of transactions go from 1, through all texts.
/// Want of memory is `Run(RunFault::Memory)`, and never inside another.
#[derive(Clone, Copy, Debug, PartialEq, Eq)]
pub enum TraceFault {
    /// A fault of the contract, of the state, or of what is asked behind the transactions.
    Run(RunFault),
    /// The transaction of this number isn't one, for this reason.
    Text(u64, JsonFault),
    /// There are more than 10,000 transactions.
    TooMany,
    /// The transaction of this number is refused, for this reason.
    Refused(u64, SemFault),
}

impl TraceFault {
    /// A fault of the transaction of a number.
    pub fn of_refused(number: u64, fault: SemFault) -> TraceFault
        ensures { result ≡ refused_fault number fault }
    {
        match fault {
            SemFault::Memory => TraceFault::Run(RunFault::Memory),
            other => TraceFault::Refused(number, other),
        }
    }
}

impl From<RunFault> for TraceFault {
    ghost from_gives = { λ inner fault. fault ≡ trace.Run inner };

    fn from(fault: RunFault) -> TraceFault {
        TraceFault::Run(fault)
    }
}

impl From<ReadFault> for TraceFault {
    ghost from_gives = { λ inner fault. fault ≡ texts_fault inner };

    fn from(fault: ReadFault) -> TraceFault {
        match fault {
            ReadFault::Text(number, fault) => TraceFault::Text(number, fault),
            ReadFault::TooMany => TraceFault::TooMany,
            ReadFault::Memory => TraceFault::Run(RunFault::Memory),
        }
    }
}

impl From<AllocError> for TraceFault {
    ghost from_gives = { λ _ fault. fault ≡ trace.Run run.Memory };

    fn from(_error: AllocError) -> TraceFault {
        TraceFault::Run(RunFault::Memory)
    }
}
