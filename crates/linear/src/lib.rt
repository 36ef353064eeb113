//! Linear expressions over symbols, which stand for whole numbers, and what ranges and facts show of them.
//!
//! A `Linear` is an expression with 128-bit coefficients. `Ranges` are the ranges of symbols, and facts are expressions that are at
//! least 0: `shown`, `refuted`, `least_shown` and `greatest_shown` say what they show, and `narrow` makes ranges narrower. Each
//! clause is over all numbers for symbols, as far as ranges and facts allow. Where a number would leave 128 bits there is no sum;
//! where something isn't shown, nothing is said.
//!
//! `specs/Linear.antt` has expressions, ranges and facts. `specs/Bounded.antt` has what ranges and facts show, `specs/Ranged.antt`
//! what is done to ranges, and `specs/ResultRanges.antt` the ranges of products and quotients. None of them says how far the code
//! looks.
#![tactic(auto)]

mod bounds;
mod chains;
mod checked;
mod linear;
mod narrowing;
mod ranges;
mod result_ranges;
mod terms;

pub use bounds::{
    Bounds, MOST_FACTS, MOST_TAKEN, counted_with, follows, follows_newest, greatest_of_both,
    greatest_shown, least_of_both, least_shown, refuted, shown, some_least,
};
pub use checked::{negation, quotient};
pub use linear::Linear;
pub use narrowing::{narrow, narrow_to};
pub use ranges::Ranges;
pub use result_ranges::{product_range, quotient_range};
pub use terms::{MOST_SYMBOLS, Term, is_below};
