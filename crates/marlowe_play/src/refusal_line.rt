//! The line that tells why a scenario isn't played.
ghost use Rattle.std.specs.Prelude.{◌≡◌, ◌++◌, IfOk, codes};
ghost use Rattle.marlowe_play.specs.Faults.{play_refusal_text};

use crate::fault::PlayFault;
use play_endings::Memory;
use play_setup::{json_fault_name, setup_line};
use std::alloc::Global;

/// The line for a fault, without its line feed: `refused scenario NAME` where the JSON text has the fault, the line of the
/// setup, or `refused Memory`.
pub fn play_refusal(alloc: Global, fault: &PlayFault) -> Result<Vec<u8>, Memory>
    ensures { IfOk result (λ line. line.items ≡ play_refusal_text fault.now) }
{
    match fault {
        PlayFault::Scenario(fault) => {
            let mut line = Vec::from_slice(alloc, b"refused scenario ")?;
            line.extend_from_slice(json_fault_name(*fault).as_bytes())?;
            Ok(line)
        }
        PlayFault::Setup(refusal) => {
            let line = setup_line(alloc, refusal)?;
            Ok(line.into_bytes())
        }
        PlayFault::Memory => Vec::from_slice(alloc, b"refused Memory"),
    }
}
