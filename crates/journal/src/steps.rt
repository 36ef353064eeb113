//! The steps on the one word that a journal keeps, and what each tells.
ghost use Rattle.std.specs.Prelude.{◌≡◌};
ghost use Rattle.logbook.specs.Pages.{may_write};
ghost use Rattle.journal.specs.Law.{head_of};

use crate::note::{Draft, Law, Note};
use logbook::{Gain, Offer, Pen, Plain, Play, Seen, Word};

/// Nothing is handed over at a step.
pub struct NoTrade;

impl<E> Gain<Note<E>, u64> for NoTrade {
    ghost use base.Fml.{ftrue};

    ghost after = { λ names about answer. ftrue };
}

/// A step that draws a key.
pub struct Draw;

impl<E> Play<Note<E>, u64> for Draw {
    ghost use Rattle.journal.specs.Law.{Draws};

    ghost then = { Draws };
}

impl<E> Plain<(), Note<E>, u64> for Draw {
    ghost use Rattle.std.specs.Prelude.{None};
    ghost use Rattle.journal.specs.Law.{no_note};

    ghost ask = { λ _. no_note };

    ghost state = { λ _. None };
}

/// A step that adds a note.
pub struct Add;

impl<E> Play<Note<E>, u64> for Add {
    ghost use Rattle.journal.specs.Law.{Adds};

    ghost then = { Adds };
}

impl<E> Plain<Draft<E>, Note<E>, u64> for Add {
    ghost use Rattle.std.specs.Prelude.{None};
    ghost use Rattle.journal.specs.Law.{note_of};

    ghost ask = { note_of };

    ghost state = { λ _. None };
}

/// A step by which the owner looks.
pub struct Look;

impl<E> Play<Note<E>, u64> for Look {
    ghost use Rattle.journal.specs.Law.{Looks};

    ghost then = { Looks };
}

// Draws a key: the pen for it.
pub(crate) fn new_key<E>(head: &Word<Note<E>, u64, Law>, seen: &Seen<Note<E>, u64, Law>) -> Pen
    requires { head.now ≡ head_of seen.now.book }
    ensures { (result.book ≡ seen.now.book) × (result.nib.right ≡ may_write) }
{
    let mut now = seen.again();
    let mut offer: Offer<Note<E>, u64, Law, NoTrade> = now.plain::<NoTrade, (), Draw>(&());
    let mut pen = now.no_pen();
    head.compare_exchange::<Draw, NoTrade>(0, 0, &mut now, &mut offer, &mut pen);
    let _word: Word<Note<E>, u64, Law> = Word::tracked(0, &mut pen);
    pen
}
