//! Why a scenario isn't played.
ghost use Rattle.std.specs.Prelude.{◌≡◌};
ghost use Rattle.marlowe_play.specs.Faults.{IsOfText, scenario_fault};
ghost use Rattle.marlowe_play.specs.declared.fault.PlayFault.TheVariants as playing;

use json_read_names::JsonFault;
use play_setup::{SetupFault, SetupRefusal};
use std::alloc::{AllocError, AllocFailed};
use thiserror::Error;

/// Why `play` gives no text. Of several the first in this order answers. Want of memory is Memory, and never inside another.
#[derive(Debug, PartialEq, Eq, Drop, Error)]
pub enum PlayFault {
    /// The text is no scenario.
    #[error("scenario: {0}")]
    Scenario(JsonFault),
    /// The setup has a fault, and nothing was played: what is refused, and why.
    #[error("the setup is refused")]
    Setup(SetupRefusal),
    /// Memory was refused.
    #[error("memory was refused")]
    Memory,
}

impl PlayFault {
    /// A fault of the text.
    pub fn of_scenario(fault: JsonFault) -> PlayFault
        ensures { result ≡ scenario_fault fault }
    {
        match fault {
            JsonFault::Memory => PlayFault::Memory,
            other => PlayFault::Scenario(other),
        }
    }
}

impl From<AllocError> for PlayFault {
    ghost from_gives = { λ _ fault. fault ≡ playing.Memory };

    fn from(_error: AllocError) -> PlayFault {
        PlayFault::Memory
    }
}

impl<T: Drop> From<AllocFailed<T>> for PlayFault {
    ghost from_gives = { λ _ fault. fault ≡ playing.Memory };

    fn from(_error: AllocFailed<T>) -> PlayFault {
        PlayFault::Memory
    }
}

impl From<SetupFault> for PlayFault {
    ghost from_gives = { λ _ fault. IsOfText fault → ⊥ };

    fn from(fault: SetupFault) -> PlayFault {
        match fault {
            SetupFault::Refused(refusal) => PlayFault::Setup(refusal),
            SetupFault::Memory => PlayFault::Memory,
        }
    }
}
