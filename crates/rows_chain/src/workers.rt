//! Rows of many checks and of many callers at once.
use crate::payments::payments;
use crate::row::{Row, row_of};
use crate::seats::{Played, admit, call, pay};
use contract::Memory;
use parties::{Checked, Gate, NoGate, Validator, Verdict, check_all};
use rows_text::{RowFault, called};
use std::alloc::Global;
use std::io;
use std::rt::Clock;
use std::sync::Wait;
use std::sync::atomic::{AtomicU64, Ordering};
use std::thread::Threads;
use std::time::Instant;

/// Counts how often it is entered and left.
#[derive(Drop)]
struct Counter {
    entered: AtomicU64,
    left: AtomicU64,
}

impl Counter {
    fn new() -> Counter {
        Counter {
            entered: AtomicU64::new(0),
            left: AtomicU64::new(0),
        }
    }

    // Whether it was left as often as it was entered.
    fn is_left(&self) -> bool {
        self.left.load(Ordering::SeqCst) == self.entered.load(Ordering::SeqCst)
    }
}

impl Gate for Counter {
    fn enter(&self, _job: usize) {
        self.entered.fetch_add(1, Ordering::SeqCst);
    }

    fn leave(&self, _job: usize) {
        self.left.fetch_add(1, Ordering::SeqCst);
    }
}

/// The answer to a row, from its word and what follows.
pub fn answer<R: Clock + AllocGlobal + Threads + Wait + Sync>(
    rt: &R,
    word: &str,
    rest: &str,
) -> Result<String, RowFault> {
    let row = row_of(rest).ok_or(RowFault::NoSuchRow)?;
    match word {
        "workers" => check_line(rt, row),
        "time" => Ok(time_line(rt, row)?),
        "seats" => seats_line(rt, row),
        "calls" => calls_line(rt, row),
        "time_calls" => micros_line(rt, pay(rt, row)?),
        "time_admits" => micros_line(rt, admit(rt, row)?),
        _ => Err(RowFault::NoSuchRow),
    }
}

/// Whether a row begins so.
pub fn is_of_workers(word: &str) -> bool {
    match word {
        "workers" | "time" | "seats" | "calls" | "time_calls" | "time_admits" => true,
        _ => false,
    }
}

fn check_line<R: AllocGlobal + Threads + Wait + Sync>(
    rt: &R,
    row: Row,
) -> Result<String, RowFault> {
    let jobs = payments(rt.alloc(), row)?;
    let gate = Counter::new();
    let checks = check_all(rt, rt.alloc(), &gate, row.workers(), jobs);
    let line = line_of(rt.alloc(), row, checks);
    if !gate.is_left() {
        return Ok(String::from_str(rt.alloc(), "the gate wasn't left")?);
    }
    line
}

fn time_line<R: Clock + AllocGlobal + Threads + Wait + Sync>(
    rt: &R,
    row: Row,
) -> io::Result<String> {
    let jobs = payments(rt.alloc(), row)?;
    let start = Instant::now(rt)?;
    let_go(check_all(rt, rt.alloc(), &NoGate, row.workers(), jobs))?;
    let took = start.elapsed(rt)?;
    Ok(format!(in rt.alloc(); "{}", took.as_micros())?)
}

fn seats_line<R: Clock + AllocGlobal + Threads + Wait + Sync>(
    rt: &R,
    row: Row,
) -> Result<String, RowFault> {
    let played = pay(rt, row)?;
    Ok(format!(in rt.alloc();
        "seats {}, payments {} each: {} entries, {} accepted",
        row.seats(),
        row.jobs,
        played.entries,
        played.accepted
    )?)
}

fn calls_line<R: Clock + AllocGlobal + Threads + Wait + Sync>(
    rt: &R,
    row: Row,
) -> Result<String, RowFault> {
    let played = call(rt, row)?;
    let told = match played.amiss {
        None => format!(in rt.alloc(); "all as the receipts say")?,
        Some((seat, place)) => {
            format!(in rt.alloc(); "not as receipt {place} of seat {seat} says")?
        }
    };
    let full = if played.was_full {
        ", the pool full at times"
    } else {
        ""
    };
    Ok(format!(in rt.alloc();
        "seats {}, calls {} each: {} entries, {told}{full}",
        row.seats(),
        row.jobs,
        played.entries
    )?)
}

fn micros_line<R: AllocGlobal>(rt: &R, played: Played) -> Result<String, RowFault> {
    Ok(format!(in rt.alloc(); "{}", played.micros)?)
}

// Lets checks go. It is generic in them, so that no proof walks through their drop.
fn let_go<T: Drop>(checks: Result<T, Memory>) -> Result<(), Memory> {
    let _checks = checks?;
    Ok(())
}

// The line for the checks of a row. It is generic in the scripts, so that no proof walks through their drop.
fn line_of<V: Validator + Drop>(
    alloc: Global,
    row: Row,
    checks: Result<Vec<Checked<V>>, Memory>,
) -> Result<String, RowFault> {
    let checks = called(checks)?;
    let accepted = accepted_among(&checks);
    let order = if are_in_order(&checks) {
        "in order"
    } else {
        "out of order"
    };
    Ok(format!(in alloc;
        "workers {}, payments {}: {accepted} accepted, {order}",
        row.workers(),
        row.jobs
    )?)
}

fn accepted_among<V: Validator>(checks: &[Checked<V>]) -> usize {
    let mut count = 0usize;
    for checked in checks {
        if matches!(checked.verdict(), Verdict::Accepted) {
            count = count.saturating_add(1);
        }
    }
    count
}

// Whether each check is of the payment that may happen from its place on.
fn are_in_order<V: Validator>(checks: &[Checked<V>]) -> bool {
    let mut place = 0i64;
    for checked in checks {
        if checked.tx().interval.from != place {
            return false;
        }
        place = place.saturating_add(1);
    }
    true
}
