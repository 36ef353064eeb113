//! What a contract can warn of and what it can pay: the walk of `analysis_walk`, with what is known of runs in linear
//! expressions (`analysis_values`, `analysis_steps`).
//!
//! `analyse` is what the program calls. What its clauses promise is said in `analysis_spec`, in `specs/Analysed.antt`
//! and `specs/Promises.antt`.
#![tactic(auto)]

mod analysing;
mod closes;
mod knowing;

pub use analysing::analyse;
