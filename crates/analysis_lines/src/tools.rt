//! JSON for tools.
ghost use Rattle.std.specs.Prelude.{◌≡◌, true, false, map, All, IfOk, IfSome, OnOk, Some, None};
ghost use Rattle.serde_json.specs.Data.{array};
ghost use Rattle.serde_json.specs.View.{items_of};
ghost use Rattle.json_write_contracts.specs.Tokens.{Puts};
ghost use Rattle.contract.specs.Tree.{contract_tree};
ghost use Rattle.contract_json.specs.WrittenInput.{transaction_json, transaction_fits};
ghost use Rattle.analysis_lines.specs.ToldLines.{line_of, LineFits, RunFits};
ghost use Rattle.analysis_lines.specs.Tools.{run_json, alarm_json, alarms_json, bound_json, range_json, ranges_json, places_json, out_json, loss_json, losses_json, noted_json, told_json, told_line};
ghost use Rattle.places.specs.Texts.{place_json};
ghost use Rattle.bound_runs.specs.Told.{HasNumbers, RangeHasNumbers, LossHasNumbers};

use crate::told::{Told, ToldAlarm};
use bound_runs::{ShownLoss, ShownRange};
use contract::{Contract, Items, Memory, State, Transaction};
use contract_json::{PutJson, WriteFault};
use contract_notes::{named_once, notes_of};
use json::Writer;
use json_write_contracts::{put_amount, put_party, put_token, word};
use note_lines::put_notes_json;
use places::{Key, kind_name, put_place_json};
use std::alloc::{AllocError, Global};

/// What is told of a contract and the state in which it starts, as one JSON text and a line feed; runs and notes where they are wanted. The
/// minimum time is told where all can be taken out at once.
pub fn json_for_tools(
    alloc: Global,
    told: &Told,
    contract: &Contract,
    state: &State,
    runs: bool,
    notes: bool,
) -> Result<Vec<u8>, Memory>
    requires alarms { All LineFits told.now.alarms.items }
    requires ranges { All RangeHasNumbers told.now.ranges }
    requires losses { IfSome told.now.losses (All LossHasNumbers) }
    ensures { IfOk result (λ text. text.items ≡ told_line runs notes state.now (contract_tree contract.now)
        (map line_of told.now.alarms.items) told.now.unreached told.now.ranges told.now.out told.now.losses) }
{
    let mut out = Writer::new(Vec::new(alloc));
    put_told(alloc, &mut out, told, contract, state, runs, notes)?;
    let mut text = out.into_inner();
    text.push(b'\n')?;
    Ok(text)
}

fn put_told(
    alloc: Global,
    out: &mut Writer,
    told: &Told,
    contract: &Contract,
    state: &State,
    runs: bool,
    notes: bool,
) -> Result<(), Memory>
    requires alarms { All LineFits told.now.alarms.items }
    requires ranges { All RangeHasNumbers told.now.ranges }
    requires losses { IfSome told.now.losses (All LossHasNumbers) }
    ensures { OnOk result (Puts out.old out.new (told_json runs notes state.now (contract_tree contract.now)
        (map line_of told.now.alarms.items) told.now.unreached told.now.ranges told.now.out told.now.losses)) }
{
    if notes {
        put_with_notes(alloc, out, told, contract, state, runs)
    } else {
        put_without_notes(alloc, out, told, contract, state, runs)
    }
}

fn put_with_notes(
    alloc: Global,
    out: &mut Writer,
    told: &Told,
    contract: &Contract,
    state: &State,
    runs: bool,
) -> Result<(), Memory>
    requires alarms { All LineFits told.now.alarms.items }
    requires ranges { All RangeHasNumbers told.now.ranges }
    requires losses { IfSome told.now.losses (All LossHasNumbers) }
    ensures { OnOk result (Puts out.old out.new (told_json runs true state.now (contract_tree contract.now)
        (map line_of told.now.alarms.items) told.now.unreached told.now.ranges told.now.out told.now.losses)) }
{
    out.begin_object()?;
    out.key("alarms")?;
    put_alarms(alloc, out, &told.alarms, runs)?;
    out.key("down")?;
    put_losses(alloc, out, &told.losses, runs)?;
    out.key("notes")?;
    put_notes(alloc, out, contract, state)?;
    out.key("out_from")?;
    put_out(alloc, out, told.out, state)?;
    out.key("ranges")?;
    put_ranges(alloc, out, &told.ranges, runs)?;
    out.key("unreached")?;
    put_places(out, &told.unreached)?;
    out.end_object()?;
    Ok(())
}

fn put_without_notes(
    alloc: Global,
    out: &mut Writer,
    told: &Told,
    contract: &Contract,
    state: &State,
    runs: bool,
) -> Result<(), Memory>
    requires alarms { All LineFits told.now.alarms.items }
    requires ranges { All RangeHasNumbers told.now.ranges }
    requires losses { IfSome told.now.losses (All LossHasNumbers) }
    ensures { OnOk result (Puts out.old out.new (told_json runs false state.now (contract_tree contract.now)
        (map line_of told.now.alarms.items) told.now.unreached told.now.ranges told.now.out told.now.losses)) }
{
    out.begin_object()?;
    out.key("alarms")?;
    put_alarms(alloc, out, &told.alarms, runs)?;
    out.key("down")?;
    put_losses(alloc, out, &told.losses, runs)?;
    out.key("out_from")?;
    put_out(alloc, out, told.out, state)?;
    out.key("ranges")?;
    put_ranges(alloc, out, &told.ranges, runs)?;
    out.key("unreached")?;
    put_places(out, &told.unreached)?;
    out.end_object()?;
    Ok(())
}

// Notes on names, choices and parties.
fn put_notes(
    alloc: Global,
    out: &mut Writer,
    contract: &Contract,
    state: &State,
) -> Result<(), Memory>
    ensures { OnOk result (Puts out.old out.new (noted_json state.now (contract_tree contract.now))) }
{
    let notes = notes_of(alloc, contract, state)?;
    let once = named_once(alloc, contract)?;
    put_notes_json(alloc, out, contract, notes.as_slice(), once.as_slice())
}

// A time, or null where none is told.
fn put_out(
    alloc: Global,
    out: &mut Writer,
    time: Option<Option<i64>>,
    state: &State,
) -> Result<(), Memory>
    ensures { OnOk result (Puts out.old out.new (out_json state.now.min_time time)) }
{
    match time {
        Some(Some(time)) => put_number(alloc, out, i128::from(time)),
        Some(None) => put_first(alloc, out, state),
        None => put_null(out),
    }
}

fn put_first(alloc: Global, out: &mut Writer, state: &State) -> Result<(), Memory>
    ensures { OnOk result (Puts out.old out.new (bound_json (Some state.now.min_time))) }
{
    put_number(alloc, out, i128::from(state.min_time()))
}

// What parties can lose, or null where that isn't told.
fn put_losses(
    alloc: Global,
    out: &mut Writer,
    losses: &Option<Items<ShownLoss>>,
    runs: bool,
) -> Result<(), Memory>
    requires { IfSome losses.now (All LossHasNumbers) }
    ensures { OnOk result (Puts out.old out.new (losses_json runs losses.now)) }
{
    match losses {
        Some(losses) => put_each_loss(alloc, out, losses.as_slice(), runs),
        None => put_null(out),
    }
}

fn put_each_loss(
    alloc: Global,
    out: &mut Writer,
    losses: &[ShownLoss],
    runs: bool,
) -> Result<(), Memory>
    requires { All LossHasNumbers losses.now }
    ensures { OnOk result (Puts out.old out.new (array (items_of (map (loss_json runs) losses.now)))) }
{
    out.begin_array()?;
    for loss in losses {
        put_loss(alloc, out, loss, runs)?;
    }
    out.end_array()?;
    Ok(())
}

fn put_loss(alloc: Global, out: &mut Writer, loss: &ShownLoss, runs: bool) -> Result<(), Memory>
    requires { LossHasNumbers loss.now }
    ensures { OnOk result (Puts out.old out.new (loss_json runs loss.now)) }
{
    if runs {
        put_loss_with_run(alloc, out, loss)
    } else {
        put_loss_alone(alloc, out, loss)
    }
}

fn put_loss_alone(alloc: Global, out: &mut Writer, loss: &ShownLoss) -> Result<(), Memory>
    ensures { OnOk result (Puts out.old out.new (loss_json false loss.now)) }
{
    out.begin_object()?;
    out.key("most")?;
    put_bound(alloc, out, loss.loss.most)?;
    out.key("party")?;
    put_party(out, &loss.loss.party)?;
    out.key("token")?;
    put_token(alloc, out, &loss.loss.token)?;
    out.end_object()?;
    Ok(())
}

fn put_loss_with_run(alloc: Global, out: &mut Writer, loss: &ShownLoss) -> Result<(), Memory>
    requires { LossHasNumbers loss.now }
    ensures { OnOk result (Puts out.old out.new (loss_json true loss.now)) }
{
    out.begin_object()?;
    out.key("most")?;
    put_bound(alloc, out, loss.loss.most)?;
    out.key("party")?;
    put_party(out, &loss.loss.party)?;
    out.key("run")?;
    put_bound_run(alloc, out, &loss.run)?;
    out.key("token")?;
    put_token(alloc, out, &loss.loss.token)?;
    out.end_object()?;
    Ok(())
}

fn put_places(out: &mut Writer, places: &Items<Items<Key>>) -> Result<(), Memory>
    ensures { OnOk result (Puts out.old out.new (places_json places.now)) }
{
    put_each_place(out, places.as_slice())
}

fn put_each_place(out: &mut Writer, places: &[Items<Key>]) -> Result<(), Memory>
    ensures { OnOk result (Puts out.old out.new (array (items_of (map place_json places.now)))) }
{
    out.begin_array()?;
    for keys in places {
        put_keys(out, keys)?;
    }
    out.end_array()?;
    Ok(())
}

fn put_keys(out: &mut Writer, keys: &Items<Key>) -> Result<(), Memory>
    ensures { OnOk result (Puts out.old out.new (place_json keys.now)) }
{
    put_place_json(out, keys.as_slice())?;
    Ok(())
}

fn put_alarms(
    alloc: Global,
    out: &mut Writer,
    alarms: &Vec<ToldAlarm>,
    runs: bool,
) -> Result<(), Memory>
    requires { All LineFits alarms.now.items }
    ensures { OnOk result (Puts out.old out.new (alarms_json runs (map line_of alarms.now.items))) }
{
    put_each_alarm(alloc, out, alarms, runs)
}

fn put_each_alarm(
    alloc: Global,
    out: &mut Writer,
    alarms: &[ToldAlarm],
    runs: bool,
) -> Result<(), Memory>
    requires { All LineFits alarms.now }
    ensures { OnOk result (Puts out.old out.new (array (items_of (map (λ t. alarm_json runs (line_of t)) alarms.now)))) }
{
    out.begin_array()?;
    for alarm in alarms {
        put_alarm(alloc, out, alarm, runs)?;
    }
    out.end_array()?;
    Ok(())
}

fn put_alarm(alloc: Global, out: &mut Writer, alarm: &ToldAlarm, runs: bool) -> Result<(), Memory>
    requires { LineFits alarm.now }
    ensures { OnOk result (Puts out.old out.new (alarm_json runs (line_of alarm.now))) }
{
    if runs {
        put_with_run(alloc, out, alarm)
    } else {
        put_without_run(out, alarm)
    }
}

// The kind of an alarm and its place alone.
fn put_without_run(out: &mut Writer, alarm: &ToldAlarm) -> Result<(), Memory>
    ensures { OnOk result (Puts out.old out.new (alarm_json false (line_of alarm.now))) }
{
    out.begin_object()?;
    out.key("kind")?;
    word(out, kind_name(alarm.alarm.kind))?;
    out.key("place")?;
    put_place_json(out, &alarm.place)?;
    out.end_object()?;
    Ok(())
}

fn put_with_run(alloc: Global, out: &mut Writer, alarm: &ToldAlarm) -> Result<(), Memory>
    requires { LineFits alarm.now }
    ensures { OnOk result (Puts out.old out.new (alarm_json true (line_of alarm.now))) }
{
    out.begin_object()?;
    out.key("kind")?;
    word(out, kind_name(alarm.alarm.kind))?;
    out.key("place")?;
    put_place_json(out, &alarm.place)?;
    out.key("run")?;
    put_run(alloc, out, &alarm.run)?;
    out.end_object()?;
    Ok(())
}

// A list of transactions, or null where no run is known.
fn put_run(alloc: Global, out: &mut Writer, run: &Option<Items<Transaction>>) -> Result<(), Memory>
    requires { IfSome run.now RunFits }
    ensures { OnOk result (Puts out.old out.new (run_json run.now)) }
{
    match run {
        Some(run) => put_transactions(alloc, out, run.as_slice()),
        None => put_null(out),
    }
}

pub(crate) fn put_null(out: &mut Writer) -> Result<(), Memory>
    ensures { OnOk result (Puts out.old out.new (run_json None)) }
{
    out.null()?;
    Ok(())
}

fn put_transactions(alloc: Global, out: &mut Writer, run: &[Transaction]) -> Result<(), Memory>
    requires { RunFits run.now }
    ensures { OnOk result (Puts out.old out.new (array (items_of (map transaction_json run.now)))) }
{
    out.begin_array()?;
    for transaction in run {
        put_transaction(alloc, out, transaction)?;
    }
    out.end_array()?;
    Ok(())
}

fn put_transaction(alloc: Global, out: &mut Writer, transaction: &Transaction) -> Result<(), Memory>
    requires { transaction_fits transaction.now ≡ true }
    ensures { OnOk result (Puts out.old out.new (transaction_json transaction.now)) }
{
    match transaction.put(alloc, out) {
        Ok(()) => Ok(()),
        Err(WriteFault::Memory) => Err(AllocError),
        Err(WriteFault::OutOfRange) => unreachable!(),
    }
}

fn put_ranges(
    alloc: Global,
    out: &mut Writer,
    ranges: &Items<ShownRange>,
    runs: bool,
) -> Result<(), Memory>
    requires { All RangeHasNumbers ranges.now }
    ensures { OnOk result (Puts out.old out.new (ranges_json runs ranges.now)) }
{
    put_each_range(alloc, out, ranges.as_slice(), runs)
}

fn put_each_range(
    alloc: Global,
    out: &mut Writer,
    ranges: &[ShownRange],
    runs: bool,
) -> Result<(), Memory>
    requires { All RangeHasNumbers ranges.now }
    ensures { OnOk result (Puts out.old out.new (array (items_of (map (range_json runs) ranges.now)))) }
{
    out.begin_array()?;
    for range in ranges {
        put_range(alloc, out, range, runs)?;
    }
    out.end_array()?;
    Ok(())
}

fn put_range(alloc: Global, out: &mut Writer, range: &ShownRange, runs: bool) -> Result<(), Memory>
    requires { RangeHasNumbers range.now }
    ensures { OnOk result (Puts out.old out.new (range_json runs range.now)) }
{
    if runs {
        put_range_with_runs(alloc, out, range)
    } else {
        put_range_alone(alloc, out, range)
    }
}

fn put_range_alone(alloc: Global, out: &mut Writer, range: &ShownRange) -> Result<(), Memory>
    ensures { OnOk result (Puts out.old out.new (range_json false range.now)) }
{
    out.begin_object()?;
    out.key("least")?;
    put_bound(alloc, out, range.range.least)?;
    out.key("most")?;
    put_bound(alloc, out, range.range.most)?;
    out.key("party")?;
    put_party(out, &range.range.party)?;
    out.key("token")?;
    put_token(alloc, out, &range.range.token)?;
    out.end_object()?;
    Ok(())
}

fn put_range_with_runs(alloc: Global, out: &mut Writer, range: &ShownRange) -> Result<(), Memory>
    requires { RangeHasNumbers range.now }
    ensures { OnOk result (Puts out.old out.new (range_json true range.now)) }
{
    out.begin_object()?;
    out.key("least")?;
    put_bound(alloc, out, range.range.least)?;
    out.key("least_run")?;
    put_bound_run(alloc, out, &range.least_run)?;
    out.key("most")?;
    put_bound(alloc, out, range.range.most)?;
    out.key("most_run")?;
    put_bound_run(alloc, out, &range.most_run)?;
    out.key("party")?;
    put_party(out, &range.range.party)?;
    out.key("token")?;
    put_token(alloc, out, &range.range.token)?;
    out.end_object()?;
    Ok(())
}

// A run that reaches a bound, or null where none is known.
#[tactic(auto, using(crate::proofs::WrittenLemmas::runs_fit))]
fn put_bound_run(
    alloc: Global,
    out: &mut Writer,
    run: &Option<Items<Transaction>>,
) -> Result<(), Memory>
    requires { IfSome run.now HasNumbers }
    ensures { OnOk result (Puts out.old out.new (run_json run.now)) }
{
    put_run(alloc, out, run)
}

// A number, or null where it is not known.
pub(crate) fn put_bound(alloc: Global, out: &mut Writer, bound: Option<i128>) -> Result<(), Memory>
    ensures { OnOk result (Puts out.old out.new (bound_json bound)) }
{
    match bound {
        Some(number) => put_number(alloc, out, number),
        None => put_null(out),
    }
}

fn put_number(alloc: Global, out: &mut Writer, number: i128) -> Result<(), Memory>
    ensures { OnOk result (Puts out.old out.new (bound_json (Some number))) }
{
    put_amount(alloc, out, &number)
}
