//! Bounds and the runs that reach them.
ghost use Rattle.std.specs.Prelude.{◌≡◌, All, option_map, IfOk, IfSome};
ghost use Rattle.std.specs.Option.{IsSomeAnd};
ghost use Rattle.contract.specs.Tree.{contract_tree};
ghost use Rattle.reached_bounds.specs.Reached.{Pays, PaysAndCloses, Loses};
ghost use Rattle.bound_runs.specs.Told.{HasNumbers, IsReached, IsLost, AreReached, AreLost, RangeHasNumbers, LossHasNumbers, ranges_of, losses_of};

use crate::seeking::{Found, seek};
use crate::written::if_written;
use analysis_spec::PaidRange;
use contract::{Contract, Items, Memory, State, Transaction};
use losses::Loss;
use reached_bounds::{reaches_least, reaches_loss, reaches_most};
use std::alloc::Global;

/// What a party is paid of a token, with a run that closes the contract and pays the least, and one that pays the most: none
/// where it isn't known, or the bound is 0.
#[derive(Debug, Drop)]
pub struct ShownRange {
    pub range: PaidRange,
    pub least_run: Option<Items<Transaction>>,
    pub most_run: Option<Items<Transaction>>,
}

/// What a party can lose of a token, with a run that closes the contract and in which it loses so much: none where it isn't
/// known, or nothing is lost.
#[derive(Debug, Drop)]
pub struct ShownLoss {
    pub loss: Loss,
    pub run: Option<Items<Transaction>>,
}

/// Ranges, and losses where they are told, with their runs.
#[derive(Drop)]
pub struct Shown {
    pub ranges: Items<ShownRange>,
    pub losses: Option<Items<ShownLoss>>,
}

/// Looks for runs from a state that reach these bounds, by no more than so much work in all, of which a unit is what at most a
/// hundred instructions do. A run is given only where it was played again, each of its transactions was accepted, and its sum is
/// the bound; no bound changes. That each bound that can be reached has its run isn't claimed.
pub fn with_runs(
    alloc: Global,
    contract: &Contract,
    state: &State,
    ranges: Items<PaidRange>,
    losses: Option<Items<Loss>>,
    work: u64,
) -> Result<Shown, Memory>
    ensures ranges { IfOk result (λ shown. ranges_of shown.ranges ≡ ranges) }
    ensures losses { IfOk result (λ shown. option_map losses_of shown.losses ≡ losses) }
    ensures reached { IfOk result (λ shown. AreReached state.now (contract_tree contract.now) shown.ranges) }
    ensures lost { IfOk result (λ shown. IfSome shown.losses (AreLost state.now (contract_tree contract.now))) }
    ensures range_numbers { IfOk result (λ shown. All RangeHasNumbers shown.ranges) }
    ensures loss_numbers { IfOk result (λ shown. IfSome shown.losses (All LossHasNumbers)) }
{
    let mut found = found_for(alloc, contract, state, &ranges, &losses, work)?;
    let ranges = shown_ranges(alloc, contract, state, ranges, &mut found)?;
    let losses = shown_losses(alloc, contract, state, losses, &mut found)?;
    Ok(Shown { ranges, losses })
}

fn found_for(
    alloc: Global,
    contract: &Contract,
    state: &State,
    ranges: &Items<PaidRange>,
    losses: &Option<Items<Loss>>,
    work: u64,
) -> Result<Found, Memory> {
    match losses {
        Some(losses) => seek(
            alloc,
            contract,
            state,
            ranges.as_slice(),
            losses.as_slice(),
            work,
        ),
        None => seek(alloc, contract, state, ranges.as_slice(), &[], work),
    }
}

fn shown_ranges(
    alloc: Global,
    contract: &Contract,
    state: &State,
    ranges: Items<PaidRange>,
    found: &mut Found,
) -> Result<Items<ShownRange>, Memory>
    ensures ranges { IfOk result (λ all. ranges_of all ≡ ranges) }
    ensures reached { IfOk result (AreReached state.now (contract_tree contract.now)) }
    ensures numbers { IfOk result (All RangeHasNumbers) }
{
    let mut all = Items::new(alloc);
    for range in ranges.into_vec() {
        let one = shown_range(alloc, contract, state, range, found)?;
        all.push(one)?;
    }
    Ok(all)
}

fn shown_range(
    alloc: Global,
    contract: &Contract,
    state: &State,
    range: PaidRange,
    found: &mut Found,
) -> Result<ShownRange, Memory>
    ensures range { IfOk result (λ it. it.range ≡ range) }
    ensures reached { IfOk result (IsReached state.now (contract_tree contract.now)) }
    ensures numbers { IfOk result RangeHasNumbers }
{
    let least_run = if_least(alloc, contract, state, &range, found.next())?;
    let most_run = if_most(alloc, contract, state, &range, found.next())?;
    Ok(ShownRange {
        range,
        least_run,
        most_run,
    })
}

// A run, if it closes the contract and pays the least.
fn if_least(
    alloc: Global,
    contract: &Contract,
    state: &State,
    range: &PaidRange,
    run: Option<Items<Transaction>>,
) -> Result<Option<Items<Transaction>>, Memory>
    ensures run { IfOk result (λ o. IfSome o (λ ts. IsSomeAnd range.now.least (λ n.
        PaysAndCloses range.now.party range.now.token n state.now (contract_tree contract.now) ts))) }
    ensures numbers { IfOk result (λ o. IfSome o HasNumbers) }
{
    let Some(run) = if_written(run) else {
        return Ok(None);
    };
    if reaches_least(alloc, contract, state, range, run.as_slice())? {
        Ok(Some(run))
    } else {
        Ok(None)
    }
}

// A run, if it pays the most.
fn if_most(
    alloc: Global,
    contract: &Contract,
    state: &State,
    range: &PaidRange,
    run: Option<Items<Transaction>>,
) -> Result<Option<Items<Transaction>>, Memory>
    ensures run { IfOk result (λ o. IfSome o (λ ts. IsSomeAnd range.now.most (λ n.
        Pays range.now.party range.now.token n state.now (contract_tree contract.now) ts))) }
    ensures numbers { IfOk result (λ o. IfSome o HasNumbers) }
{
    let Some(run) = if_written(run) else {
        return Ok(None);
    };
    if reaches_most(alloc, contract, state, range, run.as_slice())? {
        Ok(Some(run))
    } else {
        Ok(None)
    }
}

fn shown_losses(
    alloc: Global,
    contract: &Contract,
    state: &State,
    losses: Option<Items<Loss>>,
    found: &mut Found,
) -> Result<Option<Items<ShownLoss>>, Memory>
    ensures losses { IfOk result (λ all. option_map losses_of all ≡ losses) }
    ensures lost { IfOk result (λ all. IfSome all (AreLost state.now (contract_tree contract.now))) }
    ensures numbers { IfOk result (λ all. IfSome all (All LossHasNumbers)) }
{
    match losses {
        Some(losses) => {
            let all = shown_each(alloc, contract, state, losses, found)?;
            Ok(Some(all))
        }
        None => Ok(None),
    }
}

fn shown_each(
    alloc: Global,
    contract: &Contract,
    state: &State,
    losses: Items<Loss>,
    found: &mut Found,
) -> Result<Items<ShownLoss>, Memory>
    ensures losses { IfOk result (λ all. losses_of all ≡ losses) }
    ensures lost { IfOk result (AreLost state.now (contract_tree contract.now)) }
    ensures numbers { IfOk result (All LossHasNumbers) }
{
    let mut all = Items::new(alloc);
    for loss in losses.into_vec() {
        let one = shown_loss(alloc, contract, state, loss, found)?;
        all.push(one)?;
    }
    Ok(all)
}

fn shown_loss(
    alloc: Global,
    contract: &Contract,
    state: &State,
    loss: Loss,
    found: &mut Found,
) -> Result<ShownLoss, Memory>
    ensures loss { IfOk result (λ it. it.loss ≡ loss) }
    ensures lost { IfOk result (IsLost state.now (contract_tree contract.now)) }
    ensures numbers { IfOk result LossHasNumbers }
{
    let run = if_lost(alloc, contract, state, &loss, found.next())?;
    Ok(ShownLoss { loss, run })
}

// A run, if it closes the contract and so much is lost.
fn if_lost(
    alloc: Global,
    contract: &Contract,
    state: &State,
    loss: &Loss,
    run: Option<Items<Transaction>>,
) -> Result<Option<Items<Transaction>>, Memory>
    ensures run { IfOk result (λ o. IfSome o (λ ts. IsSomeAnd loss.now.most (λ n.
        Loses loss.now.party loss.now.token n state.now (contract_tree contract.now) ts))) }
    ensures numbers { IfOk result (λ o. IfSome o HasNumbers) }
{
    let Some(run) = if_written(run) else {
        return Ok(None);
    };
    if reaches_loss(alloc, contract, state, loss, run.as_slice())? {
        Ok(Some(run))
    } else {
        Ok(None)
    }
}
