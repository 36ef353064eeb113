//! `rows_chain`: worked rows of calls of the library, as data: of transactions and their checks, of a chain, of a hub's seats, of many
//! checks and of many callers at once. It plays the files that its arguments name, line by line, as `rows_text` says: below each row
//! stands its answer.
//!
//! A paragraph is a session of its own. It begins with a line `# SUBJECT`. `let NAME TEXT` names a text, for all paragraphs below it:
//! `$NAME` then stands for it in place of a contract, a state or an input. `use NAME` has the lines of the file of that name beside this
//! one stand in its place: texts that several files name. A line that begins with `- ` says what follows.
//!
//! Transactions and outputs are written as `rows_text` says, and `rows_transactions` has the rows of a transaction that is written: its
//! bytes, its checks, its copies. A file of such rows alone, as those of `data/transactions`, begins no chain.
//!
//! Where there is one, `genesis` and an output, a line each, have the outputs that the chain begins with, `geneses COUNT` and an output
//! has it so many times, and `begin TICK` begins it; from there on each line is a call, a question, or one that writes a transaction.
//! What a transaction finds is from then on what the chain has. A transaction has the name that it was handed in under, as the origin of
//! what it made, and a script that of its first publishing.
//!
//! A request for a transaction has the interval and the signers that are written, and what these lines put behind the others:
//!
//! - `offer REFERENCE` offers what the last look shows under the reference, and `offer REFERENCE OUTPUT` that output, whether it
//!   is there or not;
//! - `offers COUNT OUTPUT` offers the first outputs that the chain began with, each as that output;
//! - `claim REFERENCE` and `claim REFERENCE OUTPUT` hand in a payout so;
//! - `datum NUMBER STATE` has the last look show its thread with this datum, in place of the one that its maker brought.
//!
//! - `part INPUT ..` puts a part behind the others: the thread that the last look shows, with inputs as `rows_text` has them. Parts
//!   stay until a line `parts`, which leaves none.
//!
//! What is built stands in place of what was written, and can be submitted; where nothing is built, nothing is written, and in
//! both cases nothing is offered or claimed any more.
//!
//! These are calls. Each begins with its word and the number of the seat, and prints the reply:
//!
//! - `publish SEAT NAME CURRENCY CONTRACT`: the contract in JSON. Prints `published @NAME`, or `in use`;
//! - `nested SEAT N` publishes an assertion of so many `not`s round `true`, and `wide SEAT N` a contract that waits for so many
//!   notifies, each followed by close, which no text of the greatest length has: `published` and the id, or `refused FAULT`;
//! - `advance SEAT TICK`: `advanced` or `backward`;
//! - `look SEAT`, and in any number `thread REFERENCE`, `key ADDRESS` and `payout CURRENCY.ROLE`: prints `tick TICK`, then a
//!   line for each output that is shown, with its reference: the thread's, with its datum, and what is published under its
//!   script, or `no thread`, then those of keys, then payouts;
//! - `submit SEAT NAME` hands in the transaction that is written, under this name: `accepted NAME`, or `refused FAULT`;
//! - `enqueue SEAT NAME` enqueues it: `ticket N` or `full`. `enqueues SEAT COUNT` enqueues so many copies of it, and prints the
//!   last reply;
//! - `round SEAT COUNT`: the tickets that are taken out, each with its verdict, or `none`.
//!
//! These are questions:
//!
//! - `tick` prints it;
//! - `resolve` prints what is found of what the transaction names that is written: a line for each input, a contract's with the
//!   datum that it was made with, and one for each script; it leaves the transaction as it is;
//! - `seen` prints, of the same, what the last look holds, and `seen_by_parts` what the looks of the parts hold together;
//! - `front COUNT` prints how many of the pending transactions a round would take out, each by its name with what is found of
//!   what it names, as `resolve` does; `checks COUNT` checks these, prints the verdicts, and keeps the checks at hand;
//! - `steps_of REFERENCE` prints the number of steps of the thread that starts there, and for each its interval and the number
//!   where the contract went on, then a line for each input, warning and payment, and the state;
//! - `build step CHANGE INPUT ..` builds a step of the thread that the last look shows, with inputs as `rows_text` has
//!   them, `build steps CHANGE` steps of all parts, `build start NAME STATE CHANGE` a start of what is published under the name, and `build claim TO CHANGE` a claim:
//!   `built from` and the references of the inputs, then a line for each output; or `refused FAULT`;
//! - `history` prints a line for each entry: its place, `SEAT.NUMBER`, the call, and the reply without what a look shows;
//! - `copies COUNT` prints for each of the last so many entries whether a copy of its call is the `same`, and of its reply; and for
//!   each of these but the first whether its call, its reply and the entry are the `same` as those before or an `other`;
//! - `record_copies REFERENCE` prints for each step of the thread that starts there whether a copy of its record is the `same`, and for
//!   each but the first whether its record is the `same` as the one before or an `other`.
//!
//! `texts ENUM` prints the text of each fault of that name, a line for each, in their order, and `copies BuildFault` whether a copy of
//! each fault of a builder is the `same`. They need no chain.
//!
//! `hub SEATS TICK` begins a chain in place of `begin` and opens a hub with so many seats (the nearest number from 1 to 64): it prints
//! `begun`, and the lines below it are for its seats, up to a line `close`, which prints what `history` would. There are no questions
//! there but `build`, `seen` and `seen_by_parts`, and besides the calls above there are these:
//!
//! - `admit SEAT NAME` has the transaction that is written checked by what the last look shows, and admitted with this check;
//! - `round_by SEAT WORKERS COUNT` has so many workers check a round (the nearest number from 1 to 16);
//! - `party SEAT NAME THREAD ..` has the party of that name step the threads by one notification each in one transaction, and prints how
//!   many calls it made.
//!
//! These run in threads of their own and wait for each other. They print `met`, or `gave up` where one came in vain, and then for each
//! seat that made calls the places of their entries:
//!
//! - `meet COUNT`: seat 0 makes a round by two workers, where the first check waits for another one to begin;
//! - `look_meanwhile COUNT`: the same of a round in which the first check waits until seat 1 has looked;
//! - `overtake THREAD` or `overtake THREAD OTHER`: seat 1 plays a party that steps the threads by one notification each, and waits after
//!   its first call until a party at seat 2 has stepped the first of them.
//!
//! These need no chain either; where INPUTS is left out, it is 1:
//!
//! - `workers WORKERS JOBS INPUTS` has so many payments of so many inputs each checked by so many workers, and prints how many are
//!   accepted, and whether their checks stand in the order of the payments; or, whether memory is refused or not, that the gate wasn't
//!   left as often as it was entered. `time` prints how many microseconds that took, for measurements alone (`bench/checks_at_once.py`);
//! - `seats SEATS PAYMENTS INPUTS` has so many seats of a hub, each in a thread of its own, submit so many payments each, and prints how
//!   many entries the closed chain has, and how many of them are accepted. `time_calls` prints how many microseconds the calls took, and
//!   `time_admits 1 PAYMENTS INPUTS` the same for one seat that admits payments that were checked before (`bench/calls_of_seats.py`);
//! - `calls SEATS CALLS` has so many seats, each in a thread of its own, make so many calls each: of all six kinds, with rounds by 16
//!   workers among them. It prints how many entries the closed chain has, whether each receipt is what its entry says, with the seat
//!   and the number that the call had, and whether the pool was full at times. So where there are as many entries as calls, each
//!   belongs to one receipt. To run longer than `data/workers.txt`, play a file of one line, as `calls 64 100000`.
//!
//! An empty line is nothing. Any other line prints `no such row`.
#![tactic(auto)]

mod calls;
mod meeting;
mod party;
mod payments;
mod row;
mod seats;
mod sitting;
mod workers;

use crate::row::seats_of;
use crate::sitting::play_at;
use crate::workers::{answer, is_of_workers};
use contract::Items;
use parties::{Chain, GenesisFault, Opening};
use rows_calls::Session;
use rows_text::{Report, RowFault, first, number, parts, put_answer, text_beside};
use std::alloc::Global;
use std::marker::Brand;
use std::process::ExitCode;
use std::rt::{Clock, Env, Files};
use std::sync::Wait;
use std::thread::Threads;
use std::{env, fs, io, mem};

fn main(rt: HostRuntime) -> ExitCode {
    match print_files(&rt) {
        Ok(true) => ExitCode::SUCCESS,
        Ok(false) => ExitCode::from(1),
        Err(_) => ExitCode::from(2),
    }
}

// Whether the rows of each file that the command line names are answered as it says.
fn print_files<R: Env + Files + Clock + Print + AllocGlobal + Threads + Wait + Sync>(
    rt: &R,
) -> io::Result<bool> {
    let words: Vec<String> = env::args(rt)?.collect(rt.alloc())?;
    let mut as_written = true;
    for path in words.iter().skip(1) {
        let text = fs::read_to_string(rt, path.as_str())?;
        let mut report = Report::new(rt.alloc(), path.as_str(), text.as_str());
        take_all(rt, &mut report, text.as_str())?;
        report.finish(rt.alloc())?;
        rt.write_all(report.text())?;
        as_written = as_written && report.is_as_written();
    }
    Ok(as_written)
}

// The lines for a hub are put by until the one that closes it.
fn take_all<R: Files + Clock + AllocGlobal + Threads + Wait + Sync>(
    rt: &R,
    report: &mut Report<'_>,
    text: &str,
) -> io::Result<()> {
    let mut session = Session::new(rt.alloc());
    let mut at_hub = Vec::new(rt.alloc());
    for line in text.lines() {
        if !at_hub.is_empty() || line.starts_with("hub ") {
            at_hub.push(line)?;
        } else if report.take(rt.alloc(), line)? {
            take_row(rt, &mut session, report, line)?;
        }
        if line == "close" && !at_hub.is_empty() {
            play_hub(rt, &mut session, report, &at_hub)?;
            at_hub.clear();
        }
    }
    if at_hub.is_empty() {
        Ok(())
    } else {
        Err(io::Error::from(io::ErrorKind::Other))
    }
}

fn take_row<R: Files + Clock + AllocGlobal + Threads + Wait + Sync>(
    rt: &R,
    session: &mut Session,
    report: &mut Report<'_>,
    line: &str,
) -> io::Result<()> {
    match line.strip_prefix("use ") {
        Some(name) => take_file(rt, session, report, name),
        None => take_line(rt, session, report, line),
    }
}

// The lines of the file of that name.
fn take_file<R: Files + Clock + AllocGlobal + Threads + Wait + Sync>(
    rt: &R,
    session: &mut Session,
    report: &mut Report<'_>,
    name: &str,
) -> io::Result<()> {
    let text = text_beside(rt, report, name)?;
    for line in text.lines() {
        take_line(rt, session, report, line)?;
    }
    Ok(())
}

// The answer to a line, which is taken once more where its call is refused memory.
fn take_line<R: Clock + AllocGlobal + Threads + Wait + Sync>(
    rt: &R,
    session: &mut Session,
    report: &mut Report<'_>,
    line: &str,
) -> io::Result<()> {
    let answer = answer_to(rt, session, line);
    if put_answer(report, answer)? {
        let again = answer_to(rt, session, line);
        put_answer(report, again)?;
    }
    Ok(())
}

fn answer_to<R: Clock + AllocGlobal + Threads + Wait + Sync>(
    rt: &R,
    session: &mut Session,
    line: &str,
) -> Result<Option<Vec<u8>>, RowFault> {
    let (word, rest) = first(line);
    if is_of_workers(word) {
        Ok(Some(answer(rt, word, rest)?.into_bytes()))
    } else {
        session.take(rt.alloc(), line)
    }
}

// Begins a chain with what is written, and plays lines at a hub, of which the first has `hub SEATS TICK`.
fn play_hub<R: AllocGlobal + Threads + Wait + Sync>(
    rt: &R,
    session: &mut Session,
    report: &mut Report<'_>,
    lines: &[&str],
) -> io::Result<()> {
    let first = lines.first().copied().unwrap_or("");
    report.take(rt.alloc(), first)?;
    match opening_of(rt.alloc(), session, first) {
        Ok(opening) => {
            report.come(b"begun")?;
            play_at::<Brand, R>(rt, rt.alloc(), opening, &mut session.desk, report, lines)
        }
        Err(fault) => {
            put_answer(report, Err(fault))?;
            Ok(())
        }
    }
}

fn opening_of(alloc: Global, session: &mut Session, line: &str) -> Result<Opening, RowFault> {
    let (_word, rest) = parts(line)?;
    let (seats, tick) = parts(rest)?;
    let seats = seats_of(number(seats)?);
    let tick = number(tick)?;
    let outputs = mem::replace(&mut session.desk.genesis, Items::new(alloc));
    match Chain::genesis(alloc, outputs, tick) {
        Ok(chain) => Ok(Opening::new(chain, u64::from(seats))),
        Err(GenesisFault::Memory) => Err(RowFault::Memory),
        Err(_) => Err(RowFault::NoSuchRow),
    }
}
