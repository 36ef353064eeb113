//! What a seat calls in a thread of its own.
use crate::meeting::Meeting;
use crate::party::stepper;
use crate::payments::{ask, payment, payment_of};
use crate::row::Row;
use contract::{Bytes, Contract, Memory};
use parties::{Call, Hub, NoGate, OutputRef, Receipt, Reply, Seat, Session};
use std::alloc::Global;
use std::sync::Wait;
use std::thread::Threads;

/// What seats do at once.
#[derive(Clone, Copy)]
pub enum Work {
    /// Each submits payments of outputs that no other seat spends.
    Payments(Row),
    /// Each makes calls of all six kinds, and pays along what the others pay along too.
    AllKinds(Row),
    /// The first makes a round of so many transactions by two workers, at a meeting.
    Round(u64),
    /// The same, and the second looks once the first check has begun.
    RoundAndLook(u64),
    /// The second steps a thread, or two in one transaction, and waits after its first call until the third has stepped the first of
    /// them.
    Overtake(OutputRef, Option<OutputRef>),
}

/// A seat's calls, one after another: their receipts.
pub fn call_all<J: Session, R: Threads + Wait + Sync>(
    rt: &R,
    alloc: Global,
    hub: &Hub<J>,
    seat: &mut Seat<J>,
    work: Work,
    meeting: &Meeting,
) -> Result<Vec<Receipt<J>>, Memory> {
    match (work, seat.number()) {
        (Work::Payments(row), _) => pay_all(rt, alloc, hub, seat, row),
        (Work::AllKinds(row), _) => call_all_kinds(rt, alloc, hub, seat, row.jobs),
        (Work::Round(count), 0) => round(rt, alloc, hub, seat, meeting, count),
        (Work::RoundAndLook(count), 0) => round(rt, alloc, hub, seat, meeting, count),
        (Work::RoundAndLook(_), 1) => look(rt, alloc, hub, seat, meeting),
        (Work::Overtake(thread, None), 1) => {
            step_watched(rt, alloc, hub, seat, &[thread], meeting)
        }
        (Work::Overtake(thread, Some(other)), 1) => {
            step_watched(rt, alloc, hub, seat, &[thread, other], meeting)
        }
        (Work::Overtake(thread, _), 2) => overtake(rt, alloc, hub, seat, thread, meeting),
        _ => Ok(Vec::new(alloc)),
    }
}

fn round<J: Session, R: Threads + Wait + Sync>(
    rt: &R,
    alloc: Global,
    hub: &Hub<J>,
    seat: &mut Seat<J>,
    meeting: &Meeting,
    count: u64,
) -> Result<Vec<Receipt<J>>, Memory> {
    let mut receipts = Vec::new(alloc);
    receipts.push(hub.round(rt, alloc, seat, count, 2, meeting)?)?;
    Ok(receipts)
}

fn look<J: Session, R: Wait>(
    rt: &R,
    alloc: Global,
    hub: &Hub<J>,
    seat: &mut Seat<J>,
    meeting: &Meeting,
) -> Result<Vec<Receipt<J>>, Memory> {
    let mut receipts = Vec::new(alloc);
    meeting.await_first();
    receipts.push(hub.call(rt, alloc, seat, Call::Look(ask(alloc)?))?)?;
    meeting.second_comes();
    Ok(receipts)
}

fn step_watched<J: Session, R: Threads + Wait + Sync>(
    rt: &R,
    alloc: Global,
    hub: &Hub<J>,
    seat: &mut Seat<J>,
    threads: &[OutputRef],
    meeting: &Meeting,
) -> Result<Vec<Receipt<J>>, Memory> {
    let party = stepper(alloc, "p", threads)?;
    let (receipts, _) = party.run_watched(rt, alloc, hub, seat, meeting)?;
    Ok(receipts)
}

fn overtake<J: Session, R: Threads + Wait + Sync>(
    rt: &R,
    alloc: Global,
    hub: &Hub<J>,
    seat: &mut Seat<J>,
    thread: OutputRef,
    meeting: &Meeting,
) -> Result<Vec<Receipt<J>>, Memory> {
    let party = stepper(alloc, "q", &[thread])?;
    meeting.await_first();
    let receipts = party.run(rt, alloc, hub, seat)?;
    meeting.second_comes();
    Ok(receipts)
}

fn pay_all<J: Session, R: Wait>(
    rt: &R,
    alloc: Global,
    hub: &Hub<J>,
    seat: &mut Seat<J>,
    row: Row,
) -> Result<Vec<Receipt<J>>, Memory> {
    let seats_before = u32::try_from(seat.number()).unwrap_or(u32::MAX);
    let first = seats_before.saturating_mul(row.jobs);
    let mut receipts = Vec::new(alloc);
    for n in 0..row.jobs {
        let tx = payment(alloc, first.saturating_add(n), row.inputs)?;
        receipts.push(hub.call(rt, alloc, seat, Call::Submit(tx))?)?;
    }
    Ok(receipts)
}

// ---- all six kinds

// After so many calls the kinds begin anew. A turn ends with a round, and enqueues one transaction more than it takes.
const TURN: u32 = 32;

// How many workers check a round, and how many transactions it takes.
const ROUND: u32 = 16;

fn call_all_kinds<J: Session, R: Threads + Wait + Sync>(
    rt: &R,
    alloc: Global,
    hub: &Hub<J>,
    seat: &mut Seat<J>,
    calls: u32,
) -> Result<Vec<Receipt<J>>, Memory> {
    let mut receipts = Vec::new(alloc);
    let mut source = OutputRef::Genesis {
        index: seat.number(),
    };
    for n in 0..calls {
        let receipt = call_kind(rt, alloc, hub, seat, n, source)?;
        source = told_of(receipt.reply(), seat.number()).unwrap_or(source);
        receipts.push(receipt)?;
    }
    Ok(receipts)
}

// The n-th call.
fn call_kind<J: Session, R: Threads + Wait + Sync>(
    rt: &R,
    alloc: Global,
    hub: &Hub<J>,
    seat: &mut Seat<J>,
    n: u32,
    source: OutputRef,
) -> Result<Receipt<J>, Memory> {
    if n % TURN == TURN - 1 {
        hub.round(rt, alloc, seat, u64::from(ROUND), ROUND as usize, &NoGate)
    } else {
        hub.call(rt, alloc, seat, call_of(alloc, n, source)?)
    }
}

// The n-th call, which is no round. The tick is advanced so far that a turn's first payments may happen, and its last
// only once a seat is further on.
fn call_of(alloc: Global, n: u32, source: OutputRef) -> Result<Call, Memory> {
    match n % TURN {
        0 => Ok(Call::Look(ask(alloc)?)),
        1 => Ok(Call::Publish {
            contract: Contract::Close,
            currency: Bytes::from_vec(Vec::new(alloc)),
        }),
        2..=3 => Ok(Call::Advance(i64::from(n) + i64::from(TURN / 2))),
        4..=13 => Ok(Call::Submit(payment_of(alloc, n, source)?)),
        _ => Ok(Call::Enqueue(payment_of(alloc, n, source)?)),
    }
}

// What a seat pays along after a reply that tells of an output: the one that its payment made, or of those that it was
// shown the one at its own place.
fn told_of(reply: &Reply, seat: u64) -> Option<OutputRef> {
    match reply {
        Reply::Accepted(id) => Some(OutputRef::Made { id: *id, index: 0 }),
        Reply::Look(look) => {
            let shown = look.keys.as_slice().get(usize::try_from(seat).ok()?)?;
            Some(shown.reference)
        }
        _ => None,
    }
}
