//! Deposits.
ghost use Rattle.std.specs.Prelude.{IfOk};
ghost use Rattle.contract.specs.Tree.{value_tree};
ghost use Rattle.analysis_walk.specs.Conclusions.{DepositsSo};
ghost use Rattle.analysis_walk.specs.Knowledge.{actions_before};
ghost use Rattle.analysis_values.specs.Known.{IsDescribed};
ghost use Rattle.analysis_steps.specs.Earlier.{Tries, PutsIn};

use crate::alarms::{both, put_unless};
use crate::amounts::{added, is_natural, is_positive};
use crate::earlier::is_deposit_taken;
use crate::moved::grow;
use analysis_spec::AlarmKind;
use analysis_values::{Known, evaluate};
use analysis_walk::Conclusion;
use contract::{Case, Items, Memory, Party, Token, Value};
use std::alloc::Global;

// What may go wrong where a deposit's case is only tried, as where an earlier case takes each such deposit: a number of the
// value leaves 128 bits.
fn tried(alloc: Global, known: Known, value: &Value) -> Result<Conclusion<Known>, Memory>
    ensures { IfOk result (Tries known (value_tree value.now)) }
{
    let mut known = known;
    let due = evaluate(&mut known, value)?;
    let mut kinds = Items::new(alloc);
    put_unless(&mut kinds, due.fits, AlarmKind::Leaves128)?;
    Ok(Conclusion { kinds, known: None })
}

// A deposit by whomever, also where an earlier case takes it.
fn put_in(
    alloc: Global,
    known: Known,
    owner: &Party,
    token: &Token,
    value: &Value,
) -> Result<Conclusion<Known>, Memory>
    ensures { IfOk result (PutsIn known owner.now token.now (value_tree value.now)) }
{
    let mut known = known;
    let due = evaluate(&mut known, value)?;
    let above = is_positive(&known, &due.number)?;
    let natural = is_natural(&known, &due.number, above);
    let more = added(&mut known, &due.number, natural)?;
    let before = known.held(owner, token)?;
    let sum = grow(&mut known, owner, token, &before, &more)?;
    let fits = both(due.fits, sum);
    let mut kinds = Items::new(alloc);
    put_unless(&mut kinds, above, AlarmKind::NonPositiveDeposit)?;
    put_unless(&mut kinds, fits, AlarmKind::Leaves128)?;
    Ok(Conclusion {
        kinds,
        known: Some(known),
    })
}

/// A deposit of a value by one party into the account of another (Marlowe specification version 3, "Apply input"): none
/// where an earlier case is shown to take each. An alarm that 0 or less is deposited, unless the value is shown to be above
/// 0, and one that a number leaves 128 bits, unless the value's numbers and the sum of the account are shown to fit. Where
/// the value isn't shown to be at least 0, what is added is a new number.
pub fn deposit(
    alloc: Global,
    known: Known,
    earlier: &[Case],
    owner: &Party,
    payer: &Party,
    token: &Token,
    value: &Value,
) -> Result<Conclusion<Known>, Memory>
    ensures { IfOk result (DepositsSo IsDescribed known (actions_before earlier.now) owner.now payer.now token.now (value_tree value.now)) }
{
    let taken = is_deposit_taken(&known, earlier, owner, payer, token, value)?;
    if taken {
        tried(alloc, known, value)
    } else {
        put_in(alloc, known, owner, token, value)
    }
}
