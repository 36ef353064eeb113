//! Openings: a chain and seats that have no session yet.
ghost use Rattle.std.specs.Prelude.{◌≡◌, ◌<◌, ◌≤◌, [], IfOk, length};
ghost use Rattle.hub.specs.Seats.{AreNumbered, answered};

use crate::desk::Desk;
use crate::hub::{Hub, hub_of};
use crate::seat::Seat;
use crate::session::Session;
use chain::{Chain, Entry};
use collections::Memory;
use std::alloc::Global;
use std::marker::{Model, PhantomData};
use std::sync::ledger;

/// A chain without entries and a number of seats, with what names their session. Clauses see that: what `open` asks its session to be.
#[derive(Drop)]
pub struct Opening {
    chain: Chain,
    seats: u64,
    shares: ledger::Blank,
    journal: journal::Blank<Entry>,
}

impl Model for Opening {
    ghost use Rattle.std.specs.Coded.{codes};
    ghost use Rattle.eutxo_types.specs.contracts.output.Output as outputs;
    ghost use Rattle.std.specs.Prelude.{◌≡◌, ◌<◌, ◌≤◌, []};
    ghost use Rattle.hub.specs.Session.{Opened};

    ghost Value = { Opened };

    ghost coded = { Prim.hlevel (codes, outputs.the_row.coded) };

    ghost view = { λ o. record {
      seats = o.seats;
      shares = o.shares.name;
      book = o.journal.seen.book;
      first = o.journal.pen.nib.key;
      genesis = o.chain.genesis;
      first_tick = o.chain.first_tick;
    } };

    ghost invariant = { λ o. (o.chain.entries ≡ []) × (o.shares.parts ≡ o.seats) × (0 < o.seats) × (o.seats ≤ 64) };
}

impl Opening {
    /// Takes a chain without entries, and says how many seats there are to be: 1 to 64. It takes no memory.
    pub fn new(chain: Chain, seats: u64) -> Opening
        requires empty { chain.entries ≡ [] }
        requires some { 0 < seats }
        requires few { seats ≤ 64 }
        ensures start { (result.genesis ≡ chain.genesis) × (result.first_tick ≡ chain.first_tick) }
        ensures seats { result.seats ≡ seats }
    {
        Opening {
            chain,
            seats,
            shares: ledger::Blank::new(seats),
            journal: journal::Blank::new(),
        }
    }

    /// The hub, and its seats in the order of their numbers, each with an empty list. The session that is picked has to be this opening's. `Memory` where a
    /// growth was refused.
    pub fn open<J: Session>(self, alloc: Global) -> Result<(Hub<J>, Vec<Seat<J>>), Memory>
        requires { self ≡ J.session }
        ensures seats { IfOk result (λ r. length r.1.items ≡ self.seats) }
        ensures numbers { IfOk result (λ r. AreNumbered 0 r.1.items) }
        ensures answers { IfOk result (λ r. answered r.1.items ≡ 0) }
    {
        let Opening {
            chain,
            seats,
            shares,
            journal,
        } = self;
        let (calls, mut rest) = shares.open();
        let journal = journal.named();
        let mut all = Vec::new(alloc);
        for number in 0..seats {
            all.push(Seat {
                number,
                answers: Vec::new(alloc),
                share: rest.split_off(1, 0),
                seen: journal.beginning(),
            })?;
        }
        let desk = Desk {
            chain,
            calls,
            journal,
            rest,
            of: PhantomData,
        };
        Ok((hub_of(desk, seats), all))
    }
}
