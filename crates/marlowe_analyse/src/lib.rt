//! What a contract can warn of, what it can pay and what of it no run reaches, from the texts of a contract and a state to what is printed.
#![tactic(auto)]

mod analysed;
mod once;
mod order;
mod ranges;
mod runs;
mod taken;
mod unreached;

pub use analysed::{Analysed, Telling, analyse_text, analysis_for};
