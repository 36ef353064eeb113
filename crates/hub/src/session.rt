//! Sessions: what one opening made.
use journal::Naming;
use std::marker::{Brand, PhantomData};
use std::sync::ledger::Ledger;

/// A session, in proofs alone: what one opening made, so that seats and receipts of another are refused where a program is built. A program picks it
/// where it calls what is generic in it, with `Brand`, as the record that its `Opening` is.
pub trait Session {
    ghost use Rattle.hub.specs.Session.{Opened};

    ghost session: { Opened };
}

impl Session for Brand {
    ghost use Rattle.std.specs.Prelude.{[], pos};

    ghost session = { record {
      seats = 0;
      shares = 0;
      book = record { number = 0; log_name = 0; cells_name = 0 };
      first = 0;
      genesis = [];
      first_tick = pos 0;
    } };
}

/// Names the tokens of a session: its journal, and the book that counts its answered calls. No value of it is made.
pub struct Tokens<J: Session> {
    of: PhantomData<J>,
}

impl<J: Session> Ledger for Tokens<J> {
    ghost name = { (J.session).shares };

    ghost parts = { (J.session).seats };
}

impl<J: Session> Naming for Tokens<J> {
    ghost book = { (J.session).book };

    ghost first = { (J.session).first };
}
