//! What rounds took.
ghost use Rattle.std.specs.Prelude.{◌≡◌, ◌++◌, IfOk, OnOk};
ghost use Rattle.play_endings.specs.Endings as told;
ghost use Rattle.play_endings.specs.Endings.{taken_by, is_accepted};

use contract::Memory;
use ledger::{Entry, Reply, Ticketed, Verdict};
use std::alloc::Global;

/// A transaction that a round took out of the pool.
#[derive(Clone, Copy, Debug, Drop)]
pub struct Taken {
    pub ticket: u64,
    /// The place of the round's entry in the history.
    pub place: usize,
    pub accepted: bool,
}

fn is_accepted(verdict: &Verdict) -> bool
    ensures { result ≡ is_accepted verdict.now }
{
    match verdict {
        Verdict::Accepted => true,
        Verdict::Refused(_) => false,
    }
}

// Puts what the round at a place took.
fn put_round(taken: &mut Vec<Taken>, place: usize, tickets: &[Ticketed]) -> Result<(), Memory>
    ensures { OnOk result (taken.new.items ≡ taken.old.items ++ taken_by place tickets.now) }
{
    for ticketed in tickets {
        taken.push(Taken {
            ticket: ticketed.ticket,
            place,
            accepted: is_accepted(&ticketed.verdict),
        })?;
    }
    Ok(())
}

// Puts what the entry at a place took, if it is a round.
fn put_reply(taken: &mut Vec<Taken>, place: usize, reply: &Reply) -> Result<(), Memory>
    ensures { OnOk result (taken.new.items ≡ taken.old.items ++ told.taken_in_reply place reply.now) }
{
    match reply {
        Reply::Round(tickets) => put_round(taken, place, tickets.as_slice()),
        _ => Ok(()),
    }
}

/// What the rounds of a history took out of the pool, in order. Answers `Memory` only where a growth was refused.
pub fn taken_in(alloc: Global, entries: &[Entry]) -> Result<Vec<Taken>, Memory>
    ensures { IfOk result (λ taken. taken.items ≡ told.taken_in 0 entries.now) }
{
    let mut taken = Vec::new(alloc);
    for (place, entry) in entries.iter().enumerate() {
        put_reply(&mut taken, place, &entry.reply)?;
    }
    Ok(taken)
}
