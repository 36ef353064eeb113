//! A journal that no longer grows.
ghost use mathlib.Core.List.{IsPrefix};

use crate::beginning::Beginning;
use crate::naming::Naming;
use crate::note::{Law, Note};
use logbook::Seen;
use std::marker::{Model, PhantomData};

/// A list that no longer changes. To a contract it is the list.
#[derive(Drop)]
pub struct Sealed<E, J: Naming> {
    pub(crate) seen: Seen<Note<E>, u64, Law>,
    pub(crate) of: PhantomData<J>,
}

impl<E, J: Naming> Model for Sealed<E, J> {
    ghost use Rattle.std.specs.Prelude.{◌≡◌, List};
    ghost use Rattle.journal.specs.Notes.{told, last_key};

    ghost Value = { List E };

    ghost view = { λ s. told J.first s.seen.log };

    ghost invariant = { λ s. (s.seen.book ≡ J.book) × (last_key J.first s.seen.log ≡ 0) };
}

impl<E, J: Naming> Sealed<E, J> {
    /// Shows that the list begins with what it once was. Anyone may ask, and it takes no memory.
    pub fn covers(&self, beginning: &Beginning<E, J>)
        ensures { IsPrefix beginning.now self.now }
    {
        let mut both = self.seen.again();
        both.learn(&beginning.seen);
    }
}
