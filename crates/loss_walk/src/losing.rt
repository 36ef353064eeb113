//! What each party can lose.
ghost use Rattle.std.specs.Prelude.{◌≡◌, true, Some, pos, IfOk, IfSome, OnOk};
ghost use Rattle.contract.specs.Tree.{contract_tree};
ghost use Rattle.analysis_spec.specs.Analysed.{PaysWithinRanges, PaysOthersNothing};
ghost use Rattle.losses.specs.Told.{LoseWithin, OthersLoseNothing};
ghost use Rattle.loss_walk.specs.Floors.{AreFloors, NameAll, Tells, IsTurned};

use crate::floor::{Floor, brings, least_of};
use crate::laws::nets_bound_losses;
use crate::question::Question;
use crate::quiet::Quiet;
use crate::sole::sole_losses;
use crate::walk::walk;
use analysis_spec::PaidRange;
use analysis_steps::start;
use contract::{Account, Contract, Entries, Items, Memory, State, TryClone};
use losses::Loss;
use std::alloc::Global;

/// What each party can lose of each token in whatever runs from a state: in none that leaves nothing in the contract did it bring
/// more by more than `most` than it was paid. Named is who can bring something; who isn't named loses nothing. Only what is
/// brought from the state on counts. What parties are paid is given by its ranges, and whether each deposit is known to come; where
/// one party alone brings something that tells enough, and else the contract is gone through. Refused only for memory.
pub fn losses_of(
    alloc: Global,
    contract: &Contract,
    state: &State,
    ranges: &[PaidRange],
    all_come: bool,
) -> Result<Items<Loss>, Memory>
    requires within { PaysWithinRanges ranges.now state.now (contract_tree contract.now) }
    requires unpaid { PaysOthersNothing ranges.now state.now (contract_tree contract.now) }
    ensures losses { IfOk result (λ all. LoseWithin all state.now (contract_tree contract.now)) }
    ensures others { IfOk result (λ all. OthersLoseNothing all state.now (contract_tree contract.now)) }
{
    match sole_losses(alloc, contract, state, ranges, all_come)? {
        Some(all) => Ok(all),
        None => walked_losses(alloc, contract, state),
    }
}

// .. by a walk over the contract.
fn walked_losses(alloc: Global, contract: &Contract, state: &State) -> Result<Items<Loss>, Memory>
    ensures losses { IfOk result (λ all. LoseWithin all state.now (contract_tree contract.now)) }
    ensures others { IfOk result (λ all. OthersLoseNothing all state.now (contract_tree contract.now)) }
{
    nets_bound_losses();
    let question = Question {
        keeper: None,
        net: true,
        asked: Items::new(alloc),
    };
    let known = start(alloc, state)?;
    let mut rows = Entries::new(alloc);
    walk(
        alloc,
        &question,
        Quiet::from(state.min_time()),
        known,
        contract,
        &mut rows,
    )?;
    let all = told(alloc, &rows)?;
    Ok(all)
}

// Who brings something, and of whom it isn't known that nothing is lost.
fn told(alloc: Global, rows: &Entries<Account, Floor>) -> Result<Items<Loss>, Memory>
    ensures floors { IfOk result (AreFloors rows.now) }
    ensures all { IfOk result (NameAll rows.now) }
{
    let mut all = Items::new(alloc);
    for (account, _) in rows.as_slice() {
        put_row(&mut all, rows, account)?;
    }
    Ok(all)
}

// The row of an account is told, unless nothing is brought and nothing lost.
fn put_row(
    all: &mut Items<Loss>,
    rows: &Entries<Account, Floor>,
    account: &Account,
) -> Result<(), Memory>
    ensures { OnOk result (Tells rows.now account.now all.old all.new) }
{
    let row = rows.get(account);
    let least = least_of(row);
    let quiet = is_quiet(least, brings(row));
    if quiet {
        return Ok(());
    }
    all.push(Loss {
        party: account.owner.try_clone()?,
        token: account.token.try_clone()?,
        most: turned(least),
    })?;
    Ok(())
}

// Whether nothing is lost and nothing brought.
fn is_quiet(least: Option<i128>, brings: bool) -> bool
    ensures { result ≡ true → least ≡ Some (pos 0) }
{
    if brings {
        return false;
    }
    is_zero(least)
}

fn is_zero(least: Option<i128>) -> bool
    ensures { result ≡ true → least ≡ Some (pos 0) }
{
    match least {
        Some(least) => least == 0,
        None => false,
    }
}

// The most that is lost, where no less is paid than this floor.
fn turned(least: Option<i128>) -> Option<i128>
    ensures { IfSome result (IsTurned least) }
{
    match least {
        Some(least) => {
            if least < 0 {
                least.checked_neg()
            } else {
                Some(0)
            }
        }
        None => None,
    }
}
