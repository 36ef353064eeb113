//! What a journal once was.
ghost use Rattle.std.specs.Prelude.{◌≡◌};

use crate::naming::Naming;
use crate::note::{Law, Note};
use logbook::Seen;
use std::marker::{Model, PhantomData};

/// What the list once was. To a contract it is that list. It may be copied, and goes to other threads; it has no bytes.
#[derive(Drop)]
pub struct Beginning<E, J: Naming> {
    pub(crate) seen: Seen<Note<E>, u64, Law>,
    pub(crate) of: PhantomData<J>,
}

impl<E, J: Naming> Model for Beginning<E, J> {
    ghost use Rattle.std.specs.Prelude.{◌≡◌, List};
    ghost use Rattle.journal.specs.Notes.{told};

    ghost Value = { List E };

    ghost view = { λ r. told J.first r.seen.log };

    ghost invariant = { λ r. r.seen.book ≡ J.book };
}

impl<E, J: Naming> Beginning<E, J> {
    /// A copy.
    pub fn again(&self) -> Beginning<E, J>
        ensures { result ≡ self.now }
    {
        Beginning {
            seen: self.seen.again(),
            of: PhantomData,
        }
    }
}
