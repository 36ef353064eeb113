//! Runs that reach bounds, as lines for people.
ghost use Rattle.std.specs.Prelude.{◌≡◌, ◌++◌, true, All, flat_map, IfSome, OnOk};
ghost use Rattle.bound_runs.specs.Told.{HasNumbers, RangeHasNumbers, LossHasNumbers};
ghost use Rattle.analysis_lines.specs.Lines.{run_lines, holder_text, bound_lines, bounds_text, loss_text, range_runs, loss_runs, losses_runs, reached_lines};

use crate::lines::{bounds_text, loss_text, put_bytes, put_run};
use bound_runs::{ShownLoss, ShownRange};
use contract::{Items, Memory, Party, Token, Transaction};
use json_write_contracts::term_text;
use std::alloc::Global;

/// For each bound that a run reaches the bound once more, and the run.
pub(crate) fn put_reached(
    alloc: Global,
    out: &mut Vec<u8>,
    ranges: &[ShownRange],
    losses: &Option<Items<ShownLoss>>,
) -> Result<(), Memory>
    requires ranges { All RangeHasNumbers ranges.now }
    requires losses { IfSome losses.now (All LossHasNumbers) }
    ensures { OnOk result (out.new.items ≡ out.old.items ++ reached_lines ranges.now losses.now) }
{
    put_each_range(alloc, out, ranges)?;
    put_losses_runs(alloc, out, losses)
}

fn put_each_range(alloc: Global, out: &mut Vec<u8>, ranges: &[ShownRange]) -> Result<(), Memory>
    requires { All RangeHasNumbers ranges.now }
    ensures { OnOk result (out.new.items ≡ out.old.items ++ flat_map range_runs ranges.now) }
{
    for range in ranges {
        put_range_runs(alloc, out, range)?;
    }
    Ok(())
}

fn put_losses_runs(
    alloc: Global,
    out: &mut Vec<u8>,
    losses: &Option<Items<ShownLoss>>,
) -> Result<(), Memory>
    requires { IfSome losses.now (All LossHasNumbers) }
    ensures { OnOk result (out.new.items ≡ out.old.items ++ losses_runs losses.now) }
{
    match losses {
        Some(losses) => put_each_loss_run(alloc, out, losses.as_slice()),
        None => Ok(()),
    }
}

fn put_each_loss_run(alloc: Global, out: &mut Vec<u8>, losses: &[ShownLoss]) -> Result<(), Memory>
    requires { All LossHasNumbers losses.now }
    ensures { OnOk result (out.new.items ≡ out.old.items ++ flat_map loss_runs losses.now) }
{
    for loss in losses {
        put_loss_run(alloc, out, loss)?;
    }
    Ok(())
}

// The runs of a range: to its least, and to its most.
fn put_range_runs(alloc: Global, out: &mut Vec<u8>, range: &ShownRange) -> Result<(), Memory>
    requires { RangeHasNumbers range.now }
    ensures { OnOk result (out.new.items ≡ out.old.items ++ range_runs range.now) }
{
    let party = &range.range.party;
    let token = &range.range.token;
    let least = bounds_text(alloc, range.range.least, None)?;
    put_bound(alloc, out, party, token, &least, &range.least_run)?;
    let most = bounds_text(alloc, None, range.range.most)?;
    put_bound(alloc, out, party, token, &most, &range.most_run)
}

fn put_loss_run(alloc: Global, out: &mut Vec<u8>, loss: &ShownLoss) -> Result<(), Memory>
    requires { LossHasNumbers loss.now }
    ensures { OnOk result (out.new.items ≡ out.old.items ++ loss_runs loss.now) }
{
    let most = loss_text(alloc, loss.loss.most)?;
    put_bound(
        alloc,
        out,
        &loss.loss.party,
        &loss.loss.token,
        &most,
        &loss.run,
    )
}

// A bound and its run, if it has one.
fn put_bound(
    alloc: Global,
    out: &mut Vec<u8>,
    party: &Party,
    token: &Token,
    bound: &str,
    run: &Option<Items<Transaction>>,
) -> Result<(), Memory>
    requires { IfSome run.now HasNumbers }
    ensures { OnOk result (out.new.items ≡ out.old.items ++ bound_lines (holder_text party.now token.now) bound.now run.now) }
{
    match run {
        Some(_) => put_with_run(alloc, out, party, token, bound, run),
        None => Ok(()),
    }
}

#[tactic(auto, using(crate::proofs::WrittenLemmas::runs_fit))]
fn put_with_run(
    alloc: Global,
    out: &mut Vec<u8>,
    party: &Party,
    token: &Token,
    bound: &str,
    run: &Option<Items<Transaction>>,
) -> Result<(), Memory>
    requires { IfSome run.now HasNumbers }
    ensures { OnOk result (out.new.items ≡ out.old.items ++ (holder_text party.now token.now ++ (bound.now ++ run_lines true run.now))) }
{
    put_holder(alloc, out, party, token)?;
    put_bytes(out, bound.as_bytes())?;
    put_run(alloc, out, run)
}

// Of whom a line speaks, and of which token.
pub(crate) fn put_holder(
    alloc: Global,
    out: &mut Vec<u8>,
    party: &Party,
    token: &Token,
) -> Result<(), Memory>
    ensures { OnOk result (out.new.items ≡ out.old.items ++ holder_text party.now token.now) }
{
    let party = term_text(alloc, party)?;
    let token = term_text(alloc, token)?;
    let line = format!(in alloc; "{party} {token} ")?;
    put_bytes(out, line.as_bytes())
}
