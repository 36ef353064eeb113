//! Contracts compiled to flat tables.
#![tactic(auto)]

mod compiling;
mod fault;
mod limits;

pub use compiling::compile;
pub use fault::CompileFault;
pub use lowering;
pub use lowering::codes_stand;
pub use table;
pub use table::evaluation;
