//! Why a table isn't printed.
ghost use Rattle.std.specs.Prelude.{◌≡◌};
ghost use Rattle.marlowe_refusals.specs.TableFaults.{table_contract_fault, table_compile_fault};
ghost use Rattle.marlowe_refusals.specs.declared.table_fault.TableFault.TheVariants as table;

use compiler::CompileFault;
use json_read_names::JsonFault;
use std::alloc::AllocError;
use thiserror::Error;

/// Why `table_text` gives no text. Want of memory is Memory, and never inside another.
#[derive(Clone, Copy, Debug, PartialEq, Eq, Error)]
pub enum TableFault {
    /// The text is no contract.
    #[error("contract: {0}")]
    Contract(JsonFault),
    /// The contract has no table.
    #[error("{0}")]
    Compile(CompileFault),
    /// Memory was refused.
    #[error("memory was refused")]
    Memory,
}

impl TableFault {
    /// A fault of the text.
    pub fn of_contract(fault: JsonFault) -> TableFault
        ensures { result ≡ table_contract_fault fault }
    {
        match fault {
            JsonFault::Memory => TableFault::Memory,
            other => TableFault::Contract(other),
        }
    }
}

impl From<CompileFault> for TableFault {
    ghost from_gives = { λ inner fault. fault ≡ table_compile_fault inner };

    fn from(fault: CompileFault) -> TableFault {
        match fault {
            CompileFault::Memory => TableFault::Memory,
            other => TableFault::Compile(other),
        }
    }
}

impl From<AllocError> for TableFault {
    ghost from_gives = { λ _ fault. fault ≡ table.Memory };

    fn from(_error: AllocError) -> TableFault {
        TableFault::Memory
    }
}
