//! Journals that have no name yet.
ghost use Rattle.std.specs.Prelude.{◌≡◌, []};
ghost use Rattle.logbook.specs.Pages.{may_write};
ghost use Rattle.journal.specs.Law.{head_of};

use crate::journal::{Journal, journal_of};
use crate::naming::Naming;
use crate::note::{Law, Note};
use crate::steps::new_key;
use logbook::{Pen, Seen, Start, Word};

/// An empty journal that has no name yet: `seen` and `pen` say which it is.
#[derive(Drop)]
pub struct Blank<E> {
    head: Word<Note<E>, u64, Law>,
    pub seen: Seen<Note<E>, u64, Law>,
    pub pen: Pen,
    ghost empty: { seen.log ≡ [] },
    ghost head_is: { head ≡ head_of seen.book },
    ghost pen_is: { (pen.book ≡ seen.book) × (pen.nib.right ≡ may_write) },
}

impl<E> Blank<E> {
    /// A new journal, which is no other. It takes no memory.
    pub fn new() -> Blank<E> {
        let (seen, mut first, _second) = Seen::open(Start::alone(), 0, 0);
        let head = Word::tracked(0, &mut first);
        let pen = new_key(&head, &seen);
        Blank { head, seen, pen }
    }

    /// The journal under its name, still empty.
    pub fn named<J: Naming>(self) -> Journal<E, J>
        requires { (self.seen.book ≡ J.book) × (self.pen.nib.key ≡ J.first) }
        ensures { result ≡ [] }
    {
        let Blank { head, seen, pen } = self;
        journal_of(head, seen, pen)
    }
}
