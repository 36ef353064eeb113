//! Why a transaction is refused: a second look, made once it is, that tells what stops it and where.
//!
//! `explain` walks through the transaction once more. What it finds is a record, `Explanation`: the input that no case takes and where the
//! contract waits then, the timeout that lies inside the interval, or the place of the first number that leaves 128 bits. The
//! definitions in `specs/Explained.antt` say what each of them means, and `specs/Moves.antt` tells a transaction by its small steps.
#![tactic(auto)]

mod cases;
mod explanation;
mod finding;
mod inputs;
mod laws;
mod reductions;
mod stop;
mod walk;

pub use explanation::Explanation;
pub use laws::{
    explained_transactions_are_refused, places_are_where_it_stands, the_first_input_is_told,
    waiting_is_settled, worked_explanations,
};
pub use walk::explain;
