//! Why a transaction isn't built.
ghost use Rattle.std.specs.Prelude.{◌≡◌};
ghost use Rattle.builder_spec.specs.declared.fault.BuildFault.TheVariants as faults;

use contract::{Memory, Party, Same, SemFault, Token, TryClone};
use std::alloc::{AllocError, AllocFailed};
use thiserror::Error;

/// Why a transaction isn't built. Where several faults stand, the one that is listed first answers, and where several
/// parts have that fault, the first part's.
#[derive(Debug, PartialEq, Eq, Drop, Error)]
pub enum BuildFault {
    /// 1: the look shows no thread, or one whose output isn't of the published script or doesn't hold its datum's
    /// digest, whose datum has a number outside of the table, or whose output doesn't hold exactly the sums of its
    /// accounts. Of parts also: there are none, or two looks show different publications under one script. Of a claim:
    /// there is no payout, or an output under another lock is among them.
    #[error("there is no thread")]
    NoThread,
    /// 2: the contract refuses the inputs.
    #[error("the contract refuses: {0}")]
    Semantics(SemFault),
    /// 3: an offered output isn't under the key of a signer.
    #[error("an offered output is not signed")]
    NotSigned,
    /// 4: an input needs this party, which neither signs nor has its role's token in an offered output. Of several
    /// the one of the first such input. Of a claim: the role of the first payout whose token no offered output holds.
    #[error("a party is not authorised")]
    NotAuthorised(Party),
    /// 5: the offered outputs hold less of this token than is deposited, or than the accounts of a start hold. Of
    /// several the least. A start that is offered nothing lacks ada.
    #[error("the offered outputs do not cover a token")]
    NoFunds(Token),
    /// 6: there are more than 8 parts, the transaction would have more than 256 inputs, a contract more than 256, or
    /// what is spent would hold more than 2^127 - 1 of a token.
    #[error("there are too many inputs, or too much is spent")]
    TooMany,
    /// 7: an output is handed in twice; so also a thread.
    #[error("an output is handed in twice")]
    Repeated,
    /// 8: memory was refused.
    #[error("memory was refused")]
    Memory,
}

impl Same for BuildFault {
    fn same(&self, other: &BuildFault) -> bool {
        *self == *other
    }
}

impl TryClone for BuildFault {
    fn try_clone(&self) -> Result<BuildFault, Memory> {
        match self {
            BuildFault::NoThread => Ok(BuildFault::NoThread),
            BuildFault::Semantics(fault) => Ok(BuildFault::Semantics(*fault)),
            BuildFault::NotSigned => Ok(BuildFault::NotSigned),
            BuildFault::NotAuthorised(party) => Ok(BuildFault::NotAuthorised(party.try_clone()?)),
            BuildFault::NoFunds(token) => Ok(BuildFault::NoFunds(token.try_clone()?)),
            BuildFault::TooMany => Ok(BuildFault::TooMany),
            BuildFault::Repeated => Ok(BuildFault::Repeated),
            BuildFault::Memory => Ok(BuildFault::Memory),
        }
    }
}

impl From<AllocError> for BuildFault {
    ghost from_gives = { λ _ fault. fault ≡ faults.Memory };

    fn from(_error: AllocError) -> BuildFault {
        BuildFault::Memory
    }
}

impl<T: Drop> From<AllocFailed<T>> for BuildFault {
    ghost from_gives = { λ _ fault. fault ≡ faults.Memory };

    fn from(_error: AllocFailed<T>) -> BuildFault {
        BuildFault::Memory
    }
}
