//! Why a command gives no text: the faults of `run`, `table`, `analyse`, `trace` and `next`, the names of all faults as they are
//! printed, and the line that tells one.
#![tactic(auto)]

mod fault;
mod fault_names;
mod refusal_line;
mod table_fault;
mod trace_fault;

pub use fault::{Fault, RunFault};
pub use fault_names::{compile_fault_name, json_fault_name, sem_fault_name, write_fault_name};
pub use refusal_line::refusal;
pub use table_fault::TableFault;
pub use trace_fault::TraceFault;
