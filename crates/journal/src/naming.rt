//! Names of journals.
use std::marker::Brand;

/// Names one journal, in proofs alone: the book that its notes stand in, and the key that its first note uses up. A program picks it where it
/// calls what is generic in it, with `Brand`.
pub trait Naming {
    ghost use Rattle.std.specs.Prelude.{ℕ};
    ghost use Rattle.logbook.specs.Pages.{Book};

    ghost book: { Book };

    ghost first: { ℕ };
}

impl Naming for Brand {
    ghost book = { record { number = 0; log_name = 0; cells_name = 0 } };

    ghost first = { 0 };
}
