//! Notes, and the rule of the log that they stand in.
use logbook::{Pen, Rule};
use std::snapshot::Snapshot;

/// What the log has: a note uses up the key `by` and names the next. One without an entry seals the journal. No value of it is made.
pub struct Note<E> {
    pub by: u64,
    pub next: u64,
    pub entry: Option<E>,
}

/// The rule of the log: each note has used up its key for good.
pub struct Law;

impl<E> Rule<Note<E>, u64> for Law {
    ghost use Rattle.std.specs.Prelude.{[]};
    ghost use base.Fml.{ftrue};
    ghost use Rattle.journal.specs.Law.{IsKept};

    ghost holds = { λ cells log. IsKept cells log };

    ghost first = { [] };

    ghost hinted = { λ n log. Unit {0} };

    ghost shows = { λ log. [] };

    ghost keeps = { λ names log. ftrue };

    ghost moves = { λ ask before after answer. Unit {0} };
}

/// A note that is to be added, by its parts as proofs see them. It has no bytes but the tag of the option.
#[derive(Drop)]
pub struct Draft<E> {
    pub by: Snapshot<Pen>,
    pub next: Snapshot<Pen>,
    pub entry: Option<Snapshot<E>>,
}
