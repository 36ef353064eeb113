//! What an analysis of a contract promises, and what a run that ends in an alarm shows: all that a reader of an
//! analysis has to believe.
//!
//! The promises are definitions over the transaction function (`specs/Promises.antt`): `NeverWarns`,
//! `StaysWithin128` and `PaysBetween` speak of every run from a state, `NeverWarnsAt`, `NeverLeavesAt` and `NeverReached` of a
//! place of the contract. `specs/Marks.antt` tells a transaction step by step, with the place of each. `specs/Analysed.antt` says
//! what alarms and ranges promise of a contract. `specs/CounterRuns.antt` says which runs end in an alarm, and
//! `specs/PlacedRuns.antt` which do so at a place; such a run breaks a promise. `specs/Places.antt` says where a path
//! leads. The rows in `specs/Rows.antt` show that each promise can be broken, and where.
#![tactic(auto)]

mod alarm;
mod kind;
mod laws;
mod paid;
mod path;
mod rows;

pub use alarm::Alarm;
pub use kind::AlarmKind;
pub use laws::{
    leaving_breaks_places, leaving_breaks_promises, leaving_has_a_place, placed_runs_end_so,
    warnings_break_places, warnings_break_promises, warnings_have_places,
};
pub use paid::PaidRange;
pub use path::PathStep;
pub use rows::{worked_payments, worked_places, worked_reaches, worked_warnings};
