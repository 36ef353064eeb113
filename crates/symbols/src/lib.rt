//! What is known of symbols, which stand for whole numbers.
//!
//! `Symbols` is what is known of them: their ranges, facts (expressions that are at least 0), expressions that aren't 0, which symbols
//! are products and quotients of what, and branches: what number a symbol has where conditions hold, as one that is one of two
//! numbers by a comparison. A step either says what is known after it, or gives a new symbol for a number, whatever numbers the
//! symbols stand for, as far as what is known allows: so each clause is over all numbers for symbols. Where a product would leave
//! 128 bits it is a symbol of which less is known; where something isn't shown, nothing is said.
//!
//! `specs/Symbols.antt` has what is known of symbols, and what it means that more is known. The files from `specs/Held.antt` on have
//! what each step returns. None of them says how far the code looks.
#![tactic(auto)]

mod apart;
mod branched;
mod branches;
mod cases;
mod either;
mod join;
mod named;
mod newest;
mod operations;
mod over;
mod parts;
mod products;
mod quotients;
mod symbols;
mod within;

pub use branched::Branched;
pub use either::number_of_either;
pub use named::Named;
pub use newest::MOST_LISTED;
pub use symbols::Symbols;
