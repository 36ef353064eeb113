//! What a deposit brings, taken off what its party was paid.
ghost use Rattle.std.specs.Prelude.{◌≡◌, true, IfOk, OnOk};
ghost use Rattle.contract.specs.Tree.{value_tree, deposit, action_tree};
ghost use Rattle.analysis_steps.specs.Amounts.{GivesSum};
ghost use Rattle.analysis_walk.specs.Knowledge.{actions_before};
ghost use Rattle.loss_walk.specs.Brings.{GivesDifference, PutsHeld, TakesHeld, Takes};

use analysis_steps::{choose, deposit, notify};
use analysis_values::Known;
use analysis_walk::Conclusion;
use contract::{Action, Case, Memory, Party, Token, Value};
use linear::Linear;
use std::alloc::Global;

// The sum of two expressions; a number of which nothing is known, where it is too long.
fn sum(known: &mut Known, l: &Linear, m: &Linear) -> Result<Linear, Memory>
    ensures symbols { IfOk result (λ e. GivesSum known.old.symbols known.new.symbols l.now m.now e) }
    ensures view { known.new.view ≡ known.old.view }
{
    let sum = l.plus(m)?;
    match sum {
        Some(e) => Ok(e),
        None => known.fresh(None, None),
    }
}

// .. their difference.
fn difference(known: &mut Known, l: &Linear, m: &Linear) -> Result<Linear, Memory>
    ensures symbols { IfOk result (λ e. GivesDifference known.old.symbols known.new.symbols l.now m.now e) }
    ensures view { known.new.view ≡ known.old.view }
{
    let difference = l.minus(m)?;
    match difference {
        Some(e) => Ok(e),
        None => known.fresh(None, None),
    }
}

// A party is paid as much as an account holds.
fn put_held(known: &mut Known, party: &Party, owner: &Party, token: &Token) -> Result<(), Memory>
    ensures { OnOk result (PutsHeld known.old known.new party.now owner.now token.now) }
{
    let before = known.paid(party, token)?;
    let held = known.held(owner, token)?;
    let total = sum(known, &before, &held)?;
    known.replace_paid(party, token, total)
}

// It is paid as much less.
fn take_held(known: &mut Known, party: &Party, owner: &Party, token: &Token) -> Result<(), Memory>
    ensures { OnOk result (TakesHeld known.old known.new party.now owner.now token.now) }
{
    let before = known.paid(party, token)?;
    let held = known.held(owner, token)?;
    let total = difference(known, &before, &held)?;
    known.replace_paid(party, token, total)
}

// A deposit: what the account holds before it, less what it holds afterwards, is what its party is paid by it.
fn bring(
    alloc: Global,
    known: Known,
    earlier: &[Case],
    owner: &Party,
    payer: &Party,
    token: &Token,
    value: &Value,
) -> Result<Option<Known>, Memory>
    ensures { IfOk result (Takes true known (actions_before earlier.now) (deposit owner.now payer.now token.now (value_tree value.now))) }
{
    let mut known = known;
    put_held(&mut known, payer, owner, token)?;
    let Conclusion { kinds: _, known } = deposit(
        alloc, known, earlier, owner, payer, token, value,
    )?;
    let Some(mut there) = known else {
        return Ok(None);
    };
    take_held(&mut there, payer, owner, token)?;
    Ok(Some(there))
}

/// What is known where an action takes an input that no earlier case takes, with what it brings taken off where that is asked;
/// nothing where that can't be.
pub(crate) fn take_action(
    alloc: Global,
    net: bool,
    known: Known,
    earlier: &[Case],
    action: &Action,
) -> Result<Option<Known>, Memory>
    ensures { IfOk result (Takes net known (actions_before earlier.now) (action_tree action.now)) }
{
    match action {
        Action::Deposit(owner, payer, token, value) => {
            take_deposit(alloc, net, known, earlier, owner, payer, token, value)
        }
        Action::Choice(id, bounds) => {
            let Conclusion { kinds: _, known } = choose(alloc, known, earlier, id, bounds)?;
            Ok(known)
        }
        Action::Notify(observation) => {
            let Conclusion { kinds: _, known } = notify(alloc, known, earlier, observation)?;
            Ok(known)
        }
    }
}

fn take_deposit(
    alloc: Global,
    net: bool,
    known: Known,
    earlier: &[Case],
    owner: &Party,
    payer: &Party,
    token: &Token,
    value: &Value,
) -> Result<Option<Known>, Memory>
    ensures { IfOk result (Takes net known (actions_before earlier.now) (deposit owner.now payer.now token.now (value_tree value.now))) }
{
    if net {
        bring(alloc, known, earlier, owner, payer, token, value)
    } else {
        let Conclusion { kinds: _, known } = deposit(
            alloc, known, earlier, owner, payer, token, value,
        )?;
        Ok(known)
    }
}
