//! Why a scenario's files aren't put in.
ghost use Rattle.std.specs.Prelude.{◌≡◌};
ghost use Rattle.scenario_files.specs.ScenarioFiles.{joining};
ghost use Rattle.scenario_files.specs.declared.fault.FilesFault.TheVariants as faults;

use contract::Text;
use file_parts::JoinFault;
use json_read_names::JsonFault;
use std::alloc::{AllocError, AllocFailed};

/// Why a scenario's files aren't put in. Want of memory is Memory, and never inside another.
#[derive(Debug, Drop)]
pub enum FilesFault {
    /// The file of the contract of this name is no contract.
    Contract(Text, JsonFault),
    /// There is no text of the scenario with its files: it isn't UTF-8, in which no file is named. Otherwise this isn't known to come.
    NotJoined,
    /// Memory was refused.
    Memory,
}

impl From<JoinFault> for FilesFault {
    ghost from_gives = { λ inner fault. fault ≡ joining inner };

    fn from(fault: JoinFault) -> FilesFault {
        match fault {
            JoinFault::NotJoined => FilesFault::NotJoined,
            JoinFault::Memory => FilesFault::Memory,
        }
    }
}

impl From<AllocError> for FilesFault {
    ghost from_gives = { λ _ fault. fault ≡ faults.Memory };

    fn from(_error: AllocError) -> FilesFault {
        FilesFault::Memory
    }
}

impl<T: Drop> From<AllocFailed<T>> for FilesFault {
    ghost from_gives = { λ _ fault. fault ≡ faults.Memory };

    fn from(_error: AllocFailed<T>) -> FilesFault {
        FilesFault::Memory
    }
}
