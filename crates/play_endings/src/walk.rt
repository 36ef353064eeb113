//! Along the entries of a seat.
ghost use Rattle.std.specs.Prelude.{◌≡◌, [], slice_get, IfOk};
ghost use Rattle.play_endings.specs.Endings as told;
ghost use Rattle.play_endings.specs.Endings.{TRIES, next_at, refused_at, handed, behind, left_ending, ending_of, here, others, settled};

use crate::ending::{Ended, Ending, LeftIntent, settled_ending};
use crate::placed::Placed;
use crate::taken::Taken;
use contract::Memory;
use ledger::{Reply, TxFault};
use play_objects::Intent;
use std::alloc::Global;

// How often an intent is tried again where another was faster.
const TRIES: usize = 16;

// What an entry makes of an intent.
#[derive(Clone, Copy, Drop)]
enum Next {
    // It goes on.
    On,
    // Another turn begins.
    Again,
    // It ends.
    Ends(Ending),
}

fn refused_at(tries: usize, place: usize, fault: &TxFault) -> Next
    ensures { result ≡ refused_at tries place fault.now }
{
    match fault {
        TxFault::NotUnspent(_) => {
            if tries == 0 {
                Next::Ends(Ending::GivenUp(place))
            } else {
                Next::Again
            }
        }
        _ => Next::Ends(Ending::Refused(place)),
    }
}

fn next_at(tries: usize, place: usize, reply: &Reply) -> Next
    ensures { result ≡ next_at tries place reply.now }
{
    match reply {
        Reply::Accepted(_) => Next::Ends(Ending::Done(place)),
        Reply::Refused(fault) => refused_at(tries, place, fault),
        Reply::Ticket(ticket) => Next::Ends(Ending::Pooled(*ticket)),
        Reply::Full => Next::Ends(Ending::PoolFull(place)),
        Reply::Round(_) => Next::Ends(Ending::Done(place)),
        Reply::Advanced => Next::Ends(Ending::Done(place)),
        Reply::Backward => Next::Ends(Ending::Backward(place)),
        _ => Next::On,
    }
}

// How an intent ended that was handed in, or whose plan stopped.
fn handed<'p, 'e>(own: &'p [Placed<'e>]) -> Ended<'p, 'e>
    ensures { result ≡ handed TRIES own.now own.now }
{
    let mut tries = TRIES;
    let mut turn = own;
    for (index, placed) in own.iter().enumerate() {
        match next_at(tries, placed.place, &placed.entry.reply) {
            Next::On => {}
            Next::Again => {
                tries = tries.saturating_sub(1);
                turn = &own[index + 1..];
            }
            Next::Ends(ending) => {
                return Ended {
                    ending,
                    turn,
                    rest: &own[index + 1..],
                };
            }
        }
    }
    Ended {
        ending: Ending::Stopped,
        turn,
        rest: &[],
    }
}

// The entries behind a place.
fn behind<'p, 'e>(look: u64, own: &'p [Placed<'e>]) -> &'p [Placed<'e>]
    ensures { result.now ≡ behind look own.now }
{
    for (index, placed) in own.iter().enumerate() {
        if placed.place as u64 > look {
            return &own[index..];
        }
    }
    &[]
}

fn left_ending(intent: &Intent<usize, usize>, no_thread: bool) -> Ending
    ensures { result ≡ left_ending intent.now no_thread }
{
    match intent {
        Intent::Claim { .. } => {
            if no_thread {
                Ending::NothingToClaim
            } else {
                Ending::NotBuilt
            }
        }
        _ => Ending::NotBuilt,
    }
}

// The entries behind the last look for what was left out.
fn behind_looks<'p, 'e>(last: Option<u64>, own: &'p [Placed<'e>]) -> &'p [Placed<'e>]
    ensures { result.now ≡ told.behind_looks last own.now }
{
    match last {
        Some(look) => behind(look, own),
        None => own,
    }
}

// How an intent ended.
fn ending_of<'p, 'e>(
    intent: &Intent<usize, usize>,
    left: Option<LeftIntent>,
    own: &'p [Placed<'e>],
) -> Ended<'p, 'e>
    ensures { result ≡ ending_of intent.now left own.now }
{
    match left {
        Some(left) => Ended {
            ending: left_ending(intent, left.no_thread),
            turn: own,
            rest: behind_looks(left.last_look, own),
        },
        None => handed(own),
    }
}

// What was left out of the intent at a place, if it comes first.
fn here(place: usize, left: &[LeftIntent]) -> Option<LeftIntent>
    ensures { result ≡ here place left.now }
{
    match left.first() {
        Some(first) if first.intent == place => Some(*first),
        _ => None,
    }
}

// .. and what was left out of others.
fn others(place: usize, left: &[LeftIntent]) -> &[LeftIntent]
    ensures { result.now ≡ others place left.now }
{
    match left.split_first() {
        Some((first, rest)) if first.intent == place => rest,
        _ => left,
    }
}

fn settled<'p, 'e>(taken: &[Taken], ended: Ended<'p, 'e>) -> Ended<'p, 'e>
    ensures { result ≡ settled taken.now ended.entry }
{
    let Ended { ending, turn, rest } = ended;
    Ended {
        ending: settled_ending(taken, ending),
        turn,
        rest,
    }
}

// The entries behind those of an intent.
fn behind_own<'p, 'e>(ended: &Ended<'p, 'e>) -> &'p [Placed<'e>]
    ensures { result.now ≡ ended.now.rest }
{
    ended.rest
}

/// How each of a plan's intents ended, in order, by what its party left out, by the entries of its seat and by what rounds took out of
/// the pool. Answers `Memory` only where a growth was refused.
pub fn endings<'p, 'e>(
    alloc: Global,
    intents: &[Intent<usize, usize>],
    left: &[LeftIntent],
    own: &'p [Placed<'e>],
    taken: &[Taken],
) -> Result<Vec<Ended<'p, 'e>>, Memory>
    ensures { IfOk result (λ ended. ended.items ≡ told.endings taken.now 0 intents.now left.now own.now) }
{
    let mut ended = Vec::new(alloc);
    let mut rest = own;
    let mut outs = left;
    for (place, intent) in intents.iter().enumerate() {
        let one = settled(taken, ending_of(intent, here(place, outs), rest));
        let next = behind_own(&one);
        ended.push(one)?;
        outs = others(place, outs);
        rest = next;
    }
    Ok(ended)
}

fn is_done(ending: Ending) -> bool
    ensures { result ≡ told.is_done ending }
{
    matches!(ending, Ending::Done(_))
}

/// Whether each of these intents is done.
pub fn all_done(ended: &[Ended<'_, '_>]) -> bool
    ensures { result ≡ told.all_done ended.now }
{
    for one in ended {
        if !is_done(one.ending) {
            return false;
        }
    }
    true
}
