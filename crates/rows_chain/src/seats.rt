//! Rows of many seats, each in a thread of its own.
ghost use Rattle.std.specs.Prelude.{◌≡◌, ◌<◌, ◌≤◌};

use crate::calls::{Work, call_all};
use crate::meeting::Meeting;
use crate::payments::{found, key_output, payment};
use crate::row::Row;
use contract::{Memory, Same};
use parties::{
    Chain, Checked, Closed, Entry, GenesisFault, Hub, Opening, Published, Receipt, Reply, Seat,
    SeatAtHub, Session, check_owned,
};
use rows_text::{RowFault, both, list, times};
use std::alloc::Global;
use std::marker::Brand;
use std::rt::Clock;
use std::sync::Wait;
use std::thread::Threads;
use std::time::Instant;
use std::{mem, thread};

/// What seats did.
#[derive(Drop)]
pub struct Played {
    /// Of their closed hub.
    pub entries: usize,
    pub accepted: usize,
    /// Whether an entry says that the pool was full.
    pub was_full: bool,
    /// The first receipt whose entry says otherwise, if there is one: its seat, and its place among the seat's.
    pub amiss: Option<(u64, u64)>,
    /// How long the calls took together.
    pub micros: u128,
}

fn was_full(entries: &[Entry]) -> bool {
    for entry in entries {
        if matches!(&entry.reply, Reply::Full) {
            return true;
        }
    }
    false
}

fn accepted_among(entries: &[Entry]) -> usize {
    let mut count = 0usize;
    for entry in entries {
        if matches!(&entry.reply, Reply::Accepted(_)) {
            count = count.saturating_add(1);
        }
    }
    count
}

// Whether a seat's receipt at this place says what its entry says. The entry is of that seat and has that number, so no
// other receipt has it.
fn agrees<J: Session>(closed: &Closed<J>, receipt: &Receipt<J>, seat: u64, place: u64) -> bool {
    let entry = closed.entry(receipt);
    receipt.seat() == seat
        && receipt.number() == place
        && entry.seat == seat
        && entry.number == place
        && entry.reply.same(receipt.reply())
}

// The first receipt of all seats that doesn't agree with its entry.
fn amiss_in<J: Session>(closed: &Closed<J>, told: &[Vec<Receipt<J>>]) -> Option<(u64, u64)> {
    let mut seat = 0u64;
    for receipts in told {
        let mut place = 0u64;
        for receipt in receipts {
            if !agrees(closed, receipt, seat, place) {
                return Some((seat, place));
            }
            place = place.saturating_add(1);
        }
        seat = seat.saturating_add(1);
    }
    None
}

fn closed_after<J: Session>(
    hub: Hub<J>,
    seats: Vec<Seat<J>>,
    told: &[Vec<Receipt<J>>],
    micros: u128,
) -> Result<Played, RowFault> {
    if !hub.are_all(&seats) {
        return Err(RowFault::NoSuchRow);
    }
    let closed = hub.close(seats);
    let entries = closed.chain().entries();
    Ok(Played {
        entries: entries.len(),
        accepted: accepted_among(entries),
        was_full: was_full(entries),
        amiss: amiss_in(&closed, told),
        micros,
    })
}

// Each seat calls in a thread of its own: the seats, with their receipts or the want of memory.
fn call_in_threads<J: Session + Send + Sync, R: Threads + Wait + Sync>(
    rt: &R,
    alloc: Global,
    seats: Vec<SeatAtHub<J>>,
    work: Work,
    meeting: &Meeting,
) -> Result<Vec<(Seat<J>, Result<Vec<Receipt<J>>, Memory>)>, Memory> {
    thread::map_vec(
        rt,
        seats,
        &|handed: SeatAtHub<J>| -> (Seat<J>, Result<Vec<Receipt<J>>, Memory>) {
            let SeatAtHub { hub, mut seat } = handed;
            let told = call_all(rt, alloc, hub, &mut seat, work, meeting);
            (seat, told)
        },
    )
}

/// All seats go to their threads and come back: what each was told.
pub fn call_at_once<J: Session + Send + Sync, R: Threads + Wait + Sync>(
    rt: &R,
    alloc: Global,
    hub: &Hub<J>,
    seats: &mut Vec<Seat<J>>,
    work: Work,
    meeting: &Meeting,
) -> Result<Vec<Vec<Receipt<J>>>, Memory> {
    let mut handed = Vec::new(alloc);
    for seat in mem::replace(seats, Vec::new(alloc)) {
        handed.push(SeatAtHub { hub, seat })?;
    }
    let mut told = Vec::new(alloc);
    for (seat, receipts) in call_in_threads(rt, alloc, handed, work, meeting)? {
        seats.push(seat)?;
        told.push(receipts?)?;
    }
    Ok(told)
}

fn play_at<J: Session + Send + Sync, R: Clock + Threads + Wait + Sync>(
    rt: &R,
    alloc: Global,
    opening: Opening,
    work: Work,
) -> Result<Played, RowFault>
    requires { opening ≡ J.session }
{
    let (hub, mut seats) = opening.open::<J>(alloc)?;
    let start = Instant::now(rt)?;
    let told = call_at_once(rt, alloc, &hub, &mut seats, work, &Meeting::new())?;
    let micros = start.elapsed(rt)?.as_micros();
    closed_after(hub, seats, &told, micros)
}

// A chain that begins with so many outputs, at this tick, and is opened for so many seats.
fn opening_of(alloc: Global, outputs: u32, tick: i64, seats: u32) -> Result<Opening, RowFault>
    requires some { 0 < seats }
    requires few { seats ≤ 64 }
{
    let outputs = times(alloc, outputs, key_output(alloc, 1))?;
    match Chain::genesis(alloc, outputs, tick) {
        Ok(chain) => Ok(Opening::new(chain, u64::from(seats))),
        Err(GenesisFault::Memory) => Err(RowFault::Memory),
        Err(_) => Err(RowFault::NoSuchRow),
    }
}

/// So many seats submit so many payments each, on a chain on which each is accepted, in any order.
pub fn pay<R: Clock + AllocGlobal + Threads + Wait + Sync>(
    rt: &R,
    row: Row,
) -> Result<Played, RowFault> {
    let opening = opening_of(rt.alloc(), row.spends(), i64::MAX, row.seats())?;
    play_at::<Brand, R>(rt, rt.alloc(), opening, Work::Payments(row))
}

/// So many seats make so many calls of all kinds each. There is one output for each seat at first, at time 0.
pub fn call<R: Clock + AllocGlobal + Threads + Wait + Sync>(
    rt: &R,
    row: Row,
) -> Result<Played, RowFault> {
    let opening = opening_of(rt.alloc(), row.seats(), 0, row.seats())?;
    play_at::<Brand, R>(rt, rt.alloc(), opening, Work::AllKinds(row))
}

// ---- checks at hand

fn checks(alloc: Global, row: Row) -> Result<Vec<Checked<Published>>, Memory> {
    let checks = list(alloc, row.jobs, &|n| checked(alloc, n, row.inputs))?;
    Ok(checks.into_vec())
}

fn checked(alloc: Global, number: u32, inputs: u32) -> Result<Checked<Published>, Memory> {
    let (tx, found) = both(payment(alloc, number, inputs), found(alloc, inputs))?;
    check_owned(alloc, tx, found)
}

fn admit_all<J: Session, R: Wait>(
    rt: &R,
    alloc: Global,
    hub: &Hub<J>,
    seat: &mut Seat<J>,
    checks: Vec<Checked<Published>>,
) -> Result<Vec<Receipt<J>>, Memory> {
    let mut receipts = Vec::new(alloc);
    for checked in checks {
        receipts.push(hub.admit(rt, alloc, seat, checked)?)?;
    }
    Ok(receipts)
}

fn admit_by_one<J: Session, R: Clock + Wait>(
    rt: &R,
    alloc: Global,
    opening: Opening,
    row: Row,
) -> Result<Played, RowFault>
    requires { opening ≡ J.session }
{
    let (hub, mut seats) = opening.open::<J>(alloc)?;
    let checks = checks(alloc, row)?;
    let mut told = Vec::new(alloc);
    let start = Instant::now(rt)?;
    if let Some(seat) = seats.first_mut() {
        told.push(admit_all(rt, alloc, &hub, seat, checks)?)?;
    }
    let micros = start.elapsed(rt)?.as_micros();
    closed_after(hub, seats, &told, micros)
}

/// One seat admits so many payments that were checked before.
pub fn admit<R: Clock + AllocGlobal + Threads + Wait + Sync>(
    rt: &R,
    row: Row,
) -> Result<Played, RowFault> {
    let opening = opening_of(rt.alloc(), row.spends(), i64::MAX, row.seats())?;
    admit_by_one::<Brand, R>(rt, rt.alloc(), opening, row)
}
