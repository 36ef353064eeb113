//! Lines for people.
ghost use Rattle.std.specs.Prelude.{◌≡◌, [], ◌∷◌, ◌++◌, true, map, flat_map, codes, All, Some, IfOk, IfSome, OnOk, string_bytes};
ghost use Rattle.serde_json.specs.Written.{compact_text};
ghost use Rattle.contract_json.specs.WrittenInput.{transaction_json, transaction_fits};
ghost use Rattle.analysis_lines.specs.ToldLines.{line_of, LineFits, RunFits};
ghost use Rattle.analysis_lines.specs.Lines.{transaction_line, run_lines, whole_lines, others_line, number_line, alarm_lines, alarms_lines, unreached_line, bounds_text, range_line, out_line, loss_text, given_text, loss_line, losses_lines, start_line};

use crate::told::ToldAlarm;
use bound_runs::{ShownLoss, ShownRange};
use contract::{Items, Memory, Transaction};
use contract_json::{PutJson, WriteFault};
use json::Writer;
use json_write_contracts::term_text;
use places::{Key, kind_name, put_place};
use std::alloc::{AllocError, Global};

/// A line that there is no alarm, or the lines of each, with runs or without.
pub(crate) fn put_alarms(
    alloc: Global,
    out: &mut Vec<u8>,
    alarms: &[ToldAlarm],
    runs: bool,
) -> Result<(), Memory>
    requires { All LineFits alarms.now }
    ensures { OnOk result (out.new.items ≡ out.old.items ++ alarms_lines runs (map line_of alarms.now)) }
{
    let none = alarms.is_empty();
    if none {
        return put_bytes(out, b"never warns, stays within 128 bits\n");
    }
    put_each(alloc, out, alarms, runs)
}

fn put_each(
    alloc: Global,
    out: &mut Vec<u8>,
    alarms: &[ToldAlarm],
    runs: bool,
) -> Result<(), Memory>
    requires { All LineFits alarms.now }
    ensures { OnOk result (out.new.items ≡ out.old.items ++ flat_map (λ t. alarm_lines runs (line_of t)) alarms.now) }
{
    for alarm in alarms {
        put_alarm(alloc, out, alarm, runs)?;
    }
    Ok(())
}

/// A line that says from when on all can be taken out, where that is told.
pub(crate) fn put_out(
    alloc: Global,
    out: &mut Vec<u8>,
    time: Option<Option<i64>>,
) -> Result<(), Memory>
    ensures { OnOk result (out.new.items ≡ out.old.items ++ out_line time) }
{
    match time {
        Some(Some(time)) => put_time(alloc, out, time),
        Some(None) => put_bytes(out, b"all can be taken out at once\n"),
        None => Ok(()),
    }
}

fn put_time(alloc: Global, out: &mut Vec<u8>, time: i64) -> Result<(), Memory>
    ensures { OnOk result (out.new.items ≡ out.old.items ++ out_line (Some (Some time))) }
{
    let line = format!(in alloc; "all can be taken out from {time} on\n")?;
    put_bytes(out, line.as_bytes())
}

/// A line for each party and token: what it can lose, where that is told.
pub(crate) fn put_losses(
    alloc: Global,
    out: &mut Vec<u8>,
    losses: &Option<Items<ShownLoss>>,
    given: bool,
) -> Result<(), Memory>
    ensures { OnOk result (out.new.items ≡ out.old.items ++ losses_lines given losses.now) }
{
    match losses {
        Some(losses) => put_each_loss(alloc, out, losses.as_slice(), given),
        None => Ok(()),
    }
}

fn put_each_loss(
    alloc: Global,
    out: &mut Vec<u8>,
    losses: &[ShownLoss],
    given: bool,
) -> Result<(), Memory>
    ensures { OnOk result (out.new.items ≡ out.old.items ++ flat_map (loss_line given) losses.now) }
{
    for loss in losses {
        put_loss(alloc, out, loss, given)?;
    }
    Ok(())
}

fn put_loss(alloc: Global, out: &mut Vec<u8>, loss: &ShownLoss, given: bool) -> Result<(), Memory>
    ensures { OnOk result (out.new.items ≡ out.old.items ++ loss_line given loss.now) }
{
    let party = term_text(alloc, &loss.loss.party)?;
    let token = term_text(alloc, &loss.loss.token)?;
    let most = loss_text(alloc, loss.loss.most)?;
    let line = format!(in alloc; "{party} {token} {most}")?;
    put_bytes(out, line.as_bytes())?;
    put_given(out, given)
}

// The end of a line: where a state is given, only what is brought from there on counts.
pub(crate) fn put_given(out: &mut Vec<u8>, given: bool) -> Result<(), Memory>
    ensures { OnOk result (out.new.items ≡ out.old.items ++ given_text given) }
{
    if given {
        put_bytes(out, b" from the given state\n")
    } else {
        put_bytes(out, b"\n")
    }
}

pub(crate) fn loss_text(alloc: Global, most: Option<i128>) -> Result<String, Memory>
    ensures { IfOk result (λ text. string_bytes text ≡ loss_text most) }
{
    match most {
        Some(most) => {
            if most == 0 {
                format!(in alloc; "never down")
            } else {
                format!(in alloc; "at most {most} down")
            }
        }
        None => format!(in alloc; "down not known"),
    }
}

/// Where no state is given, a line that runs start without accounts.
pub(crate) fn put_start(out: &mut Vec<u8>, given: bool) -> Result<(), Memory>
    ensures { OnOk result (out.new.items ≡ out.old.items ++ start_line given) }
{
    if given {
        return Ok(());
    }
    put_bytes(out, b"from a start without accounts\n")
}

pub(crate) fn put_bytes(out: &mut Vec<u8>, bytes: &[u8]) -> Result<(), Memory>
    ensures { OnOk result (out.new.items ≡ out.old.items ++ bytes.now) }
{
    out.extend_from_slice(bytes)?;
    Ok(())
}

// An alarm that is told itself, and how many others are told with it.
fn put_alarm(alloc: Global, out: &mut Vec<u8>, alarm: &ToldAlarm, runs: bool) -> Result<(), Memory>
    requires { LineFits alarm.now }
    ensures { OnOk result (out.new.items ≡ out.old.items ++ alarm_lines runs (line_of alarm.now)) }
{
    match alarm.head {
        Some(others) => {
            put_whole(alloc, out, alarm, runs)?;
            put_others(alloc, out, others)
        }
        None => Ok(()),
    }
}

// A line that tells at how many other places there is such an alarm, if there are any.
fn put_others(alloc: Global, out: &mut Vec<u8>, others: usize) -> Result<(), Memory>
    ensures { OnOk result (out.new.items ≡ out.old.items ++ others_line others) }
{
    match others {
        0 => Ok(()),
        1 => put_bytes(out, b"and at 1 more place\n"),
        _ => put_number_of(alloc, out, others),
    }
}

fn put_number_of(alloc: Global, out: &mut Vec<u8>, others: usize) -> Result<(), Memory>
    ensures { OnOk result (out.new.items ≡ out.old.items ++ number_line others) }
{
    let line = format!(in alloc; "and at {others} more places\n")?;
    put_bytes(out, line.as_bytes())
}

// The kind of an alarm and its place, and then a line for each transaction of its run.
fn put_whole(alloc: Global, out: &mut Vec<u8>, alarm: &ToldAlarm, runs: bool) -> Result<(), Memory>
    requires { LineFits alarm.now }
    ensures { OnOk result (out.new.items ≡ out.old.items ++ whole_lines runs (line_of alarm.now)) }
{
    put_bytes(out, kind_name(alarm.alarm.kind).as_bytes())?;
    put_bytes(out, b" at ")?;
    put_place(alloc, out, &alarm.place)?;
    put_end(alloc, out, &alarm.run, runs)
}

// The end of an alarm's line, and its run; or without that.
fn put_end(
    alloc: Global,
    out: &mut Vec<u8>,
    run: &Option<Items<Transaction>>,
    runs: bool,
) -> Result<(), Memory>
    requires { IfSome run.now RunFits }
    ensures { OnOk result (out.new.items ≡ out.old.items ++ run_lines runs run.now) }
{
    if runs {
        put_run(alloc, out, run)
    } else {
        put_bytes(out, b"\n")
    }
}

// The transactions of a run, each on a line, if it is known.
pub(crate) fn put_run(
    alloc: Global,
    out: &mut Vec<u8>,
    run: &Option<Items<Transaction>>,
) -> Result<(), Memory>
    requires { IfSome run.now RunFits }
    ensures { OnOk result (out.new.items ≡ out.old.items ++ run_lines true run.now) }
{
    match run {
        Some(run) => {
            put_bytes(out, b", by this run:\n")?;
            put_transactions(alloc, out, run.as_slice())
        }
        None => put_bytes(out, b", not known\n"),
    }
}

fn put_transactions(alloc: Global, out: &mut Vec<u8>, run: &[Transaction]) -> Result<(), Memory>
    requires { RunFits run.now }
    ensures { OnOk result (out.new.items ≡ out.old.items ++ flat_map transaction_line run.now) }
{
    for transaction in run {
        put_transaction(alloc, out, transaction)?;
    }
    Ok(())
}

// The compact JSON of a transaction, on a line.
fn put_transaction(
    alloc: Global,
    out: &mut Vec<u8>,
    transaction: &Transaction,
) -> Result<(), Memory>
    requires { transaction_fits transaction.now ≡ true }
    ensures { OnOk result (out.new.items ≡ out.old.items ++ transaction_line transaction.now) }
{
    let text = transaction_text(alloc, transaction)?;
    put_bytes(out, text.as_slice())?;
    put_bytes(out, b"\n")
}

fn transaction_text(alloc: Global, transaction: &Transaction) -> Result<Vec<u8>, Memory>
    requires { transaction_fits transaction.now ≡ true }
    ensures { IfOk result (λ text. text.items ≡ compact_text (transaction_json transaction.now)) }
{
    let mut out = Writer::new(Vec::new(alloc));
    match transaction.put(alloc, &mut out) {
        Ok(()) => Ok(out.into_inner()),
        Err(WriteFault::Memory) => Err(AllocError),
        Err(WriteFault::OutOfRange) => unreachable!(),
    }
}

/// A line for each part to which no run comes, by the keys that lead there.
pub(crate) fn put_unreached(
    alloc: Global,
    out: &mut Vec<u8>,
    places: &[Items<Key>],
) -> Result<(), Memory>
    ensures { OnOk result (out.new.items ≡ out.old.items ++ flat_map unreached_line places.now) }
{
    for keys in places {
        put_keys(alloc, out, keys)?;
    }
    Ok(())
}

fn put_keys(alloc: Global, out: &mut Vec<u8>, keys: &Items<Key>) -> Result<(), Memory>
    ensures { OnOk result (out.new.items ≡ out.old.items ++ unreached_line keys.now) }
{
    put_bytes(out, b"never reached: ")?;
    put_place(alloc, out, keys.as_slice())?;
    put_bytes(out, b"\n")
}

/// A line for each party and token: what it is paid, as far as that is known.
pub(crate) fn put_ranges(
    alloc: Global,
    out: &mut Vec<u8>,
    ranges: &[ShownRange],
) -> Result<(), Memory>
    ensures { OnOk result (out.new.items ≡ out.old.items ++ flat_map range_line ranges.now) }
{
    for range in ranges {
        put_range(alloc, out, range)?;
    }
    Ok(())
}

fn put_range(alloc: Global, out: &mut Vec<u8>, range: &ShownRange) -> Result<(), Memory>
    ensures { OnOk result (out.new.items ≡ out.old.items ++ range_line range.now) }
{
    let party = term_text(alloc, &range.range.party)?;
    let token = term_text(alloc, &range.range.token)?;
    let bounds = bounds_text(alloc, range.range.least, range.range.most)?;
    let line = format!(in alloc; "{party} {token} {bounds}\n")?;
    put_bytes(out, line.as_bytes())
}

pub(crate) fn bounds_text(
    alloc: Global,
    least: Option<i128>,
    most: Option<i128>,
) -> Result<String, Memory>
    ensures { IfOk result (λ text. string_bytes text ≡ bounds_text least most) }
{
    match (least, most) {
        (Some(least), Some(most)) => format!(in alloc; "at least {least}, at most {most}"),
        (Some(least), None) => format!(in alloc; "at least {least}"),
        (None, Some(most)) => format!(in alloc; "at most {most}"),
        (None, None) => format!(in alloc; "not known"),
    }
}
