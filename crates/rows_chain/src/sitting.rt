//! The seats of a hub as they play rows.
ghost use Rattle.std.specs.Prelude.{◌≡◌, ◌<◌, ◌≤◌};

use crate::calls::Work;
use crate::meeting::Meeting;
use crate::party::stepper;
use crate::row::workers_of;
use crate::seats::call_at_once;
use contract::{Memory, TryClone};
use parties::{
    Call, Checked, Hub, NoGate, Opening, OutputRef, Published, Receipt, Seat, Session, check_owned,
};
use rows_calls::{Calls, Desk, finish, history_lines, name_written, put_reply, taken};
use rows_text::{
    Known, Report, RowFault, called, first, in_bytes, number, parts, put_answer, reference_of,
};
use std::alloc::Global;
use std::io;
use std::sync::Wait;
use std::thread::Threads;

// The seats of a hub.
#[derive(Drop)]
struct Sitting<'a, J: Session, R> {
    rt: &'a R,
    hub: &'a Hub<J>,
    seats: &'a mut Vec<Seat<J>>,
}

impl<'a, J: Session, R: Wait> Calls for Sitting<'a, J, R> {
    fn call(
        &mut self,
        alloc: Global,
        desk: &mut Desk,
        seat: u64,
        call: Call,
    ) -> Result<String, RowFault> {
        let seat = seat_at(self.seats, seat)?;
        let receipt = self.hub.call(self.rt, alloc, seat, call);
        told(alloc, desk, receipt)
    }

    fn question(
        &self,
        _alloc: Global,
        _desk: &mut Desk,
        _word: &str,
        _rest: &str,
    ) -> Result<String, RowFault> {
        Err(RowFault::NoSuchRow)
    }
}

fn seat_at<J: Session>(seats: &mut Vec<Seat<J>>, number: u64) -> Result<&mut Seat<J>, RowFault> {
    let place = usize::try_from(number).ok().ok_or(RowFault::NoSuchRow)?;
    seats.get_mut(place).ok_or(RowFault::NoSuchRow)
}

// What is printed for the reply of a receipt.
fn told<J: Session>(
    alloc: Global,
    desk: &mut Desk,
    receipt: Result<Receipt<J>, Memory>,
) -> Result<String, RowFault> {
    let receipt = called(receipt)?;
    put_reply(alloc, &desk.known, &mut desk.look, receipt.reply())
}

/// Opens a hub, plays all lines at it but the first, of which the last closes it, and prints what stands in its history then.
pub fn play_at<J: Session + Send + Sync, R: Threads + Wait + Sync>(
    rt: &R,
    alloc: Global,
    opening: Opening,
    desk: &mut Desk,
    report: &mut Report<'_>,
    lines: &[&str],
) -> io::Result<()>
    requires { opening ≡ J.session }
{
    let (hub, mut seats) = opening.open::<J>(alloc)?;
    for line in lines.iter().skip(1) {
        if report.take(alloc, line)? && *line != "close" {
            take_line(rt, alloc, &hub, &mut seats, desk, report, line)?;
        }
    }
    put_answer(report, in_bytes(closed(alloc, hub, seats, &desk.known)))?;
    Ok(())
}

fn closed<J: Session>(
    alloc: Global,
    hub: Hub<J>,
    seats: Vec<Seat<J>>,
    known: &Known,
) -> Result<Option<String>, RowFault> {
    if !hub.are_all(&seats) {
        return Err(RowFault::Failed);
    }
    let closed = hub.close(seats);
    let lines = history_lines(alloc, known, closed.chain().entries())?;
    Ok(Some(lines))
}

// A line at a hub, which is taken once more where its call is refused memory.
fn take_line<J: Session + Send + Sync, R: Threads + Wait + Sync>(
    rt: &R,
    alloc: Global,
    hub: &Hub<J>,
    seats: &mut Vec<Seat<J>>,
    desk: &mut Desk,
    report: &mut Report<'_>,
    line: &str,
) -> io::Result<()> {
    let answer = answer(rt, alloc, hub, seats, desk, line);
    if put_answer(report, in_bytes(answer))? {
        let again = self::answer(rt, alloc, hub, seats, desk, line);
        put_answer(report, in_bytes(again))?;
    }
    Ok(())
}

// What is printed for a line at a hub, if anything.
fn answer<J: Session + Send + Sync, R: Threads + Wait + Sync>(
    rt: &R,
    alloc: Global,
    hub: &Hub<J>,
    seats: &mut Vec<Seat<J>>,
    desk: &mut Desk,
    line: &str,
) -> Result<Option<String>, RowFault> {
    let (word, rest) = first(line);
    match word {
        "admit" => Ok(Some(admit(rt, alloc, hub, seats, desk, rest)?)),
        "round_by" => Ok(Some(round(rt, alloc, hub, seats, desk, rest)?)),
        "party" => Ok(Some(party(rt, alloc, hub, seats, &desk.known, rest)?)),
        "meet" | "look_meanwhile" | "overtake" => {
            let work = work_of(&desk.known, word, rest)?;
            Ok(Some(at_once(rt, alloc, hub, seats, work)?))
        }
        _ => {
            let mut sitting = Sitting { rt, hub, seats };
            taken(alloc, &mut sitting, desk, word, rest)
        }
    }
}

// Has the transaction that is written checked by what the last look shows, and admitted, from `SEAT NAME`.
fn admit<J: Session, R: Wait>(
    rt: &R,
    alloc: Global,
    hub: &Hub<J>,
    seats: &mut Vec<Seat<J>>,
    desk: &mut Desk,
    rest: &str,
) -> Result<String, RowFault> {
    let (seat, name) = parts(rest)?;
    let seat = seat_at(seats, number(seat)?)?;
    name_written(alloc, desk, name)?;
    let told = admitted(rt, alloc, hub, seat, desk);
    finish(alloc, desk, &told);
    told
}

fn admitted<J: Session, R: Wait>(
    rt: &R,
    alloc: Global,
    hub: &Hub<J>,
    seat: &mut Seat<J>,
    desk: &mut Desk,
) -> Result<String, RowFault> {
    let checked = checked(alloc, desk)?;
    told(alloc, desk, hub.admit(rt, alloc, seat, checked))
}

fn checked(alloc: Global, desk: &Desk) -> Result<Checked<Published>, RowFault> {
    match &desk.look {
        Some(look) => {
            let tx = desk.tx.try_clone()?;
            let found = look.resolve(alloc, &tx)?;
            Ok(check_owned(alloc, tx, found)?)
        }
        None => Err(RowFault::NoSuchRow),
    }
}

// From `SEAT WORKERS COUNT`.
fn round<J: Session, R: Threads + Wait + Sync>(
    rt: &R,
    alloc: Global,
    hub: &Hub<J>,
    seats: &mut Vec<Seat<J>>,
    desk: &mut Desk,
    rest: &str,
) -> Result<String, RowFault> {
    let (seat, rest) = parts(rest)?;
    let (workers, count) = parts(rest)?;
    let seat = seat_at(seats, number(seat)?)?;
    let workers = workers_of(number(workers)?);
    let receipt = hub.round(rt, alloc, seat, number(count)?, workers, &NoGate);
    told(alloc, desk, receipt)
}

// How many calls a party makes that steps threads, from `SEAT NAME THREAD ..`.
fn party<J: Session, R: Threads + Wait + Sync>(
    rt: &R,
    alloc: Global,
    hub: &Hub<J>,
    seats: &mut Vec<Seat<J>>,
    known: &Known,
    rest: &str,
) -> Result<String, RowFault> {
    let (seat, rest) = parts(rest)?;
    let (name, threads) = parts(rest)?;
    let seat = seat_at(seats, number(seat)?)?;
    let threads = threads_of(alloc, known, threads)?;
    let party = stepper(alloc, name, &threads)?;
    let receipts = called(party.run(rt, alloc, hub, seat))?;
    Ok(format!(in alloc; "calls {}", receipts.len())?)
}

fn threads_of(alloc: Global, known: &Known, words: &str) -> Result<Vec<OutputRef>, RowFault> {
    let mut threads = Vec::new(alloc);
    for word in words.split_whitespace() {
        threads.push(reference_of(&known.sent, word)?)?;
    }
    Ok(threads)
}

// ---- threads

fn work_of(known: &Known, word: &str, rest: &str) -> Result<Work, RowFault> {
    match word {
        "meet" => Ok(Work::Round(number(rest)?)),
        "look_meanwhile" => Ok(Work::RoundAndLook(number(rest)?)),
        _ => {
            let (thread, other) = first(rest);
            let thread = reference_of(&known.sent, thread)?;
            let other = match other {
                "" => None,
                other => Some(reference_of(&known.sent, other)?),
            };
            Ok(Work::Overtake(thread, other))
        }
    }
}

// What each seat does in a thread of its own: whether they met, and for each that made calls the places of their entries.
fn at_once<J: Session + Send + Sync, R: Threads + Wait + Sync>(
    rt: &R,
    alloc: Global,
    hub: &Hub<J>,
    seats: &mut Vec<Seat<J>>,
    work: Work,
) -> Result<String, RowFault> {
    let meeting = Meeting::new();
    let told = call_at_once(rt, alloc, hub, seats, work, &meeting)?;
    let mut lines = String::from_str(alloc, if meeting.met() { "met" } else { "gave up" })?;
    for receipts in &told {
        put_places(alloc, &mut lines, receipts)?;
    }
    Ok(lines)
}

fn put_places<J: Session>(
    alloc: Global,
    lines: &mut String,
    receipts: &[Receipt<J>],
) -> Result<(), Memory> {
    if let Some(first) = receipts.first() {
        let head = format!(in alloc; "\n {}:", first.seat())?;
        lines.push_str(head.as_str())?;
    }
    for receipt in receipts {
        let place = format!(in alloc; " {}", receipt.entry())?;
        lines.push_str(place.as_str())?;
    }
    Ok(())
}
