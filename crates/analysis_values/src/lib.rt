//! What is known of a run in linear expressions, and what values and observations are there.
//!
//! A `Known` is what is known at a node of a contract: symbols that stand for whole numbers, and the state, the
//! transaction's interval and what was paid, in expressions over them. `specs/Known.antt` defines of which runs it is
//! true. `evaluate` returns an expression for the number of a value, and says whether the numbers on the way are shown
//! to fit 128 bits; `observe` returns what is known where an observation is true, and where it is false. Their clauses
//! (`specs/Answered.antt`) hold for every run that satisfies what is known. Where nothing sharper is shown, the number
//! becomes a new symbol, or both truths stay possible. A `Cond` that occurs twice has one symbol, if its comparisons and
//! the numbers of its branches are known to be the same.
#![tactic(auto)]

mod cases;
mod comparisons;
mod conditionals;
mod evaluated;
mod junctions;
mod known;
mod lookup;
mod observations;
mod observed;
mod operations;
mod plain;
mod stays;
mod sums;
mod truths;
mod values;
mod view;

pub use evaluated::evaluate;
pub use known::Known;
pub use observed::{Observed, either, observe};
pub use values::Evaluated;
