//! What is counted and kept of the entries of a history.
ghost use Rattle.std.specs.Prelude.{◌≡◌, ◌+◌, ◌<◌, ◌^◌, ℕ, [], OnOk, OnErr, IsSome, length, nat_eq};
ghost use Rattle.std.specs.Map.{lookup};
ghost use Rattle.chain_index.specs.LedgerSpec.Replay.{Course};
ghost use Rattle.ledger_kept.specs.Kept.{IsTally, TalliesEntry, counted};
ghost use Rattle.ledger_kept.specs.TallySupport.{tally_after, IsCounted};

use crate::counts::{SeatCounts, add_one, count_at, make_room};
use crate::rounds::{accept, accept_among, take_out, wait};
use chain_index::{Call, Entry, Reply, is_accepted, is_advanced, ticket_in, verdicts_in};
use contract::Memory;
use indexmap::IndexMap;
use std::alloc::Global;
use std::marker::Model;

/// A ticket that waits for a round.
#[derive(Clone, Copy)]
pub struct Waiting {
    pub ticket: u64,
    /// The place of the entry that enqueued its transaction, counted from 0.
    pub entry: usize,
}

/// The tick, the count of tickets, what is pending, where the texts of accepted transactions stand, and each seat's
/// count of entries, after the entries of a history. Which history it is, `IsTally` says.
pub struct Tally {
    tick: i64,
    tickets: u64,
    pending: Vec<Waiting>,
    places: Vec<usize>,
    counts: SeatCounts,
}

impl Model for Tally {
    ghost use Rattle.std.specs.Coded.{codes};
    ghost use Rattle.ledger_kept.specs.contracts.tally.Waiting as waiting_rows;
    ghost use Rattle.ledger_kept.specs.Kept.{Tally};

    ghost Value = { Tally };

    ghost coded = { Prim.hlevel (codes, waiting_rows.the_row.coded) };

    ghost view = { λ a. record { tick = a.tick; tickets = a.tickets; pending = a.pending.items; places = a.places.items; counts = a.counts.entries } };
}

// Dropped once: the drop is written, not derived, so that no crate above proves it again.
impl Drop for Tally {
    fn drop(self) {
        let Tally {
            tick: _,
            tickets: _,
            pending: _,
            places: _,
            counts: _,
        } = self;
    }
}

impl Tally {
    /// Of a history without entries, whose tick is the one given. Takes no memory.
    pub fn new(alloc: Global, tick: i64) -> Tally
        ensures { (c : Course) → c.first_tick ≡ tick → c.entries ≡ [] → IsTally result c }
    {
        Tally {
            tick,
            tickets: 0,
            pending: Vec::new(alloc),
            places: Vec::new(alloc),
            counts: IndexMap::new(alloc),
        }
    }

    /// The tick, in POSIX milliseconds.
    pub fn tick(&self) -> i64
        ensures { result ≡ self.now.tick }
    {
        self.tick
    }

    /// How many tickets were given.
    pub fn tickets(&self) -> u64
        ensures { result ≡ self.now.tickets }
    {
        self.tickets
    }

    /// How many entries a seat has.
    pub fn count_of(&self, seat: u64) -> u64
        ensures { result ≡ counted self.now.counts seat }
    {
        count_at(&self.counts, seat)
    }

    /// What is pending.
    pub(crate) fn pending(&self) -> &[Waiting]
        ensures { result.now ≡ self.now.pending }
    {
        self.pending.as_slice()
    }

    /// Where the texts of the accepted transactions stand.
    pub(crate) fn places(&self) -> &[usize]
        ensures { result.now ≡ self.now.places }
    {
        self.places.as_slice()
    }

    // Keeps what the call and the reply of the entry at a place change, but for what is counted. A refusal for memory
    // changes nothing.
    fn follow(&mut self, place: usize, call: &Call, reply: &Reply) -> Result<(), Memory>
        ensures ok { OnOk result (self.new ≡ tally_after self.old place call.now reply.now) }
        ensures err { OnErr result (self.new ≡ self.old) }
    {
        match call {
            Call::Publish { .. } => Ok(()),
            Call::Advance(tick) => {
                if is_advanced(reply) {
                    self.tick = *tick;
                }
                Ok(())
            }
            Call::Look(_) => Ok(()),
            Call::Submit(_) => {
                if is_accepted(reply) {
                    accept(&mut self.places, place)?;
                }
                Ok(())
            }
            Call::Enqueue(_) => {
                if let Some(ticket) = ticket_in(reply) {
                    wait(&mut self.pending, ticket, place)?;
                }
                Ok(())
            }
            Call::Round(count) => {
                accept_among(&mut self.places, &self.pending, verdicts_in(reply))?;
                take_out(&mut self.pending, *count);
                Ok(())
            }
        }
    }

    // Counts an entry, and the ticket that it gave. There is room for its seat. Takes no memory.
    fn count(&mut self, entry: &Entry)
        requires room { IsSome (lookup (nat_eq entry.now.seat) self.old.counts) }
        requires count { counted self.old.counts entry.now.seat + 1 < 2 ^ 64 }
        requires tickets { self.old.tickets + 1 < 2 ^ 64 }
        ensures { IsCounted self.old entry.now self.new }
    {
        if ticket_in(&entry.reply).is_some() {
            self.tickets += 1;
        }
        add_one(&mut self.counts, entry.seat);
    }

    /// Keeps what one entry more changes, which is the one at this place: its tick, its ticket, what a round took and
    /// accepted, and that its seat has one more. It costs what the entry is long, and what is pending where a round
    /// takes some. A refusal for memory leaves the tally of the same history.
    pub fn keep(&mut self, place: usize, entry: &Entry) -> Result<(), Memory>
        requires room { place + 1 < 2 ^ 64 }
        requires so { (c : Course) × (length c.entries ≡ place) × IsTally self.old c }
        ensures ok { OnOk result (TalliesEntry place entry.now self.old self.new) }
        ensures err { OnErr result ((c : Course) → IsTally self.old c → IsTally self.new c) }
    {
        make_room(&mut self.counts, entry.seat)?;
        self.follow(place, &entry.call, &entry.reply)?;
        self.count(entry);
        Ok(())
    }
}
