//! The journal, in the hands of its owner.
ghost use Rattle.std.specs.Prelude.{◌≡◌, [], ◌∷◌, ◌++◌};
ghost use mathlib.Core.List.{IsPrefix};
ghost use Rattle.logbook.specs.Pages.{may_write};
ghost use Rattle.journal.specs.Law.{head_of};

use crate::beginning::Beginning;
use crate::naming::Naming;
use crate::note::{Draft, Law, Note};
use crate::sealed::Sealed;
use crate::steps::{Add, Draw, Look, NoTrade, new_key};
use logbook::{Offer, Pen, Seen, Word};
use std::marker::{Model, PhantomData};
use std::snapshot::Snapshot;

/// A list that only grows, in the hands of who adds to it. To a contract it is the list.
#[derive(Drop)]
pub struct Journal<E, J: Naming> {
    head: Word<Note<E>, u64, Law>,
    seen: Seen<Note<E>, u64, Law>,
    pen: Pen,
    of: PhantomData<J>,
}

// The journal of a blank.
pub(crate) fn journal_of<E, J: Naming>(
    head: Word<Note<E>, u64, Law>,
    seen: Seen<Note<E>, u64, Law>,
    pen: Pen,
) -> Journal<E, J>
    requires empty { seen.log ≡ [] }
    requires head { head ≡ head_of J.book }
    requires seen { seen.book ≡ J.book }
    requires pen { (pen.book ≡ J.book) × (pen.nib.right ≡ may_write) × (pen.nib.key ≡ J.first) }
    ensures { result ≡ [] }
{
    Journal {
        head,
        seen,
        pen,
        of: PhantomData,
    }
}

impl<E, J: Naming> Model for Journal<E, J> {
    ghost use Rattle.std.specs.Prelude.{◌≡◌, List};
    ghost use Rattle.logbook.specs.Pages.{may_write};
    ghost use Rattle.journal.specs.Notes.{told, last_key};
    ghost use Rattle.journal.specs.Law.{head_of};

    ghost Value = { List E };

    ghost view = { λ o. told J.first o.seen.log };

    ghost invariant = { λ o. (o.head ≡ head_of J.book) × (o.seen.book ≡ J.book) × (o.pen.book ≡ J.book) × (o.pen.nib.right ≡ may_write) × (o.pen.nib.key ≡ last_key J.first o.seen.log) };
}

impl<E, J: Naming> Journal<E, J> {
    /// Adds an entry at the end. It takes no memory.
    pub fn add(&mut self, entry: &E)
        ensures { self.new ≡ self.old ++ entry.now ∷ [] }
    {
        let next = new_key(&self.head, &self.seen);
        let draft = Draft {
            by: Snapshot::of(&self.pen),
            next: Snapshot::of(&next),
            entry: Some(Snapshot::of(entry)),
        };
        let mut offer: Offer<Note<E>, u64, Law, NoTrade> = self
            .seen
            .plain::<NoTrade, Draft<E>, Add>(&draft);
        self.head
            .compare_exchange::<Add, NoTrade>(0, 0, &mut self.seen, &mut offer, &mut self.pen);
        self.pen = next;
    }

    /// The list as it is now, to keep.
    pub fn beginning(&self) -> Beginning<E, J>
        ensures { result ≡ self.now }
    {
        Beginning {
            seen: self.seen.again(),
            of: PhantomData,
        }
    }

    /// Shows that the list still begins with what it once was. It changes nothing.
    pub fn covers(&mut self, beginning: &Beginning<E, J>)
        ensures same { self.new ≡ self.old }
        ensures prefix { IsPrefix beginning.now self.old }
    {
        let mut both = self.seen.again();
        both.learn(&beginning.seen);
        let mut offer: Offer<Note<E>, u64, Law, NoTrade> = both.plain::<NoTrade, (), Draw>(&());
        self.head
            .compare_exchange::<Look, NoTrade>(0, 0, &mut both, &mut offer, &mut self.pen);
    }

    /// Seals the list: nobody adds to it any more.
    pub fn seal(self) -> Sealed<E, J>
        ensures { result ≡ self }
    {
        let Journal {
            head,
            mut seen,
            mut pen,
            of,
        } = self;
        let next = seen.no_pen();
        let draft: Draft<E> = Draft {
            by: Snapshot::of(&pen),
            next: Snapshot::of(&next),
            entry: None,
        };
        let mut offer: Offer<Note<E>, u64, Law, NoTrade> = seen.plain::<NoTrade, Draft<E>, Add>(
            &draft,
        );
        head.compare_exchange::<Add, NoTrade>(0, 0, &mut seen, &mut offer, &mut pen);
        Sealed { seen, of }
    }
}
