//! The walk over a contract, from what is known of its runs, and what follows from it.
//!
//! A walk goes over the contract once, from what is known at its start, and keeps the alarms, what parties are paid where
//! it is closed, and the places to which no run comes: `analyse_by`. `Knowledge` is what it asks for: a conclusion of each step that is true of
//! every run that comes there (`specs/Conclusions.antt`).
//!
//! What a contract may do is told along its tree: `Covers` of `specs/Covered.antt` says that limits are kept from a
//! place on, in whatever transactions, and `Avoids` of `specs/Avoided.antt` that no run takes a path. The laws here lead from
//! there to the promises of `analysis_spec`.
#![tactic(auto)]

mod action;
mod analysing;
mod closings;
mod conclusion;
mod found;
mod knowledge;
mod laws;
mod parts;
mod row;
mod span;
mod walk;
mod weight;

pub use analysing::{Analysis, analyse_by};
pub use conclusion::{Branches, Conclusion};
pub use knowledge::Knowledge;
pub use laws::{
    alarms_name_where_it_comes, alarms_name_where_it_leaves, avoided_is_never_reached,
    payments_lie_in_ranges,
};
pub use parts::part_behind;
pub use span::Span;
