//! All lines for people.
ghost use Rattle.std.specs.Prelude.{◌≡◌, [], ◌++◌, if◌then◌else◌, map, All, IfOk, IfSome, OnOk};
ghost use Rattle.contract.specs.Tree.{contract_tree};
ghost use Rattle.bound_runs.specs.Told.{RangeHasNumbers, LossHasNumbers};
ghost use Rattle.analysis_lines.specs.ToldLines.{line_of, LineFits};
ghost use Rattle.analysis_lines.specs.Lines.{reached_lines, noted_lines, told_lines};

use crate::lines::{put_alarms, put_losses, put_out, put_ranges, put_start, put_unreached};
use crate::reached::put_reached;
use crate::told::Told;
use contract::{Contract, Memory, State};
use contract_notes::{named_once, notes_of};
use note_lines::put_note_lines;
use std::alloc::Global;

/// What is told of a contract and the state in which it starts, as lines, each with a line feed; runs and notes where they are wanted. Where
/// no state was given, a line says so.
pub fn lines_for_people(
    alloc: Global,
    told: &Told,
    contract: &Contract,
    state: &State,
    given: bool,
    runs: bool,
    notes: bool,
) -> Result<Vec<u8>, Memory>
    requires alarms { All LineFits told.now.alarms.items }
    requires ranges { All RangeHasNumbers told.now.ranges }
    requires losses { IfSome told.now.losses (All LossHasNumbers) }
    ensures { IfOk result (λ text. text.items ≡ told_lines runs notes given state.now (contract_tree contract.now)
        (map line_of told.now.alarms.items) told.now.unreached told.now.ranges told.now.out told.now.losses) }
{
    let mut out = Vec::new(alloc);
    put_alarms(alloc, &mut out, &told.alarms, runs)?;
    put_unreached(alloc, &mut out, told.unreached.as_slice())?;
    put_ranges(alloc, &mut out, told.ranges.as_slice())?;
    put_out(alloc, &mut out, told.out)?;
    put_losses(alloc, &mut out, &told.losses, given)?;
    put_start(&mut out, given)?;
    put_reached_if(alloc, &mut out, told, runs)?;
    put_notes_if(alloc, &mut out, contract, state, notes)?;
    Ok(out)
}

// The runs that reach bounds, where they are wanted.
fn put_reached_if(alloc: Global, out: &mut Vec<u8>, told: &Told, runs: bool) -> Result<(), Memory>
    requires ranges { All RangeHasNumbers told.now.ranges }
    requires losses { IfSome told.now.losses (All LossHasNumbers) }
    ensures { OnOk result (out.new.items
        ≡ out.old.items ++ (if runs then reached_lines told.now.ranges told.now.losses else [])) }
{
    if runs {
        put_reached(alloc, out, told.ranges.as_slice(), &told.losses)
    } else {
        Ok(())
    }
}

// Notes, where they are wanted.
fn put_notes_if(
    alloc: Global,
    out: &mut Vec<u8>,
    contract: &Contract,
    state: &State,
    notes: bool,
) -> Result<(), Memory>
    ensures { OnOk result (out.new.items
        ≡ out.old.items ++ (if notes then noted_lines state.now (contract_tree contract.now) else [])) }
{
    if notes {
        put_noted(alloc, out, contract, state)
    } else {
        Ok(())
    }
}

fn put_noted(
    alloc: Global,
    out: &mut Vec<u8>,
    contract: &Contract,
    state: &State,
) -> Result<(), Memory>
    ensures { OnOk result (out.new.items ≡ out.old.items ++ noted_lines state.now (contract_tree contract.now)) }
{
    let notes = notes_of(alloc, contract, state)?;
    let once = named_once(alloc, contract)?;
    put_note_lines(alloc, out, contract, notes.as_slice(), once.as_slice())
}
