//! Pay, Let and Assert.
ghost use Rattle.std.specs.Prelude.{◌≡◌, IfOk};
ghost use Rattle.std.specs.Option.{is_none};
ghost use Rattle.contract.specs.Tree.{value_tree, observation_tree};
ghost use Rattle.analysis_walk.specs.Conclusions.{PaysSo, BindsSo, AssertsSo};
ghost use Rattle.analysis_values.specs.Known.{IsDescribed};

use crate::alarms::{both, put_unless};
use crate::amounts::{is_covered, is_natural, is_positive};
use crate::moved::transfer;
use analysis_spec::AlarmKind;
use analysis_values::{Known, Observed, either, evaluate, observe};
use analysis_walk::Conclusion;
use contract::{Items, Memory, Observation, Party, Payee, Text, Token, Value};
use std::alloc::Global;

/// A Pay of a value from the account of a party (Marlowe specification version 3, "Pay"). An alarm that 0 or less is
/// paid, unless the value is shown to be above 0; one that less is paid than is due, unless the account is shown to
/// have it; one that a number leaves 128 bits, unless the value's numbers and the sum of the payee's account are shown
/// to fit. Where not all is shown to be paid, what is paid is a new number from 0 to what the account has.
pub fn pay(
    alloc: Global,
    known: Known,
    from: &Party,
    to: &Payee,
    token: &Token,
    value: &Value,
) -> Result<Conclusion<Known>, Memory>
    ensures { IfOk result (PaysSo IsDescribed known from.now to.now token.now (value_tree value.now)) }
{
    let mut known = known;
    let due = evaluate(&mut known, value)?;
    let above = is_positive(&known, &due.number)?;
    let balance = known.held(from, token)?;
    let covered = is_covered(&known, &balance, &due.number)?;
    let natural = is_natural(&known, &due.number, above);
    let whole = both(natural, covered);
    let sum = transfer(&mut known, from, to, token, &balance, &due.number, whole)?;
    let fits = both(due.fits, sum);
    let mut kinds = Items::new(alloc);
    put_unless(&mut kinds, above, AlarmKind::NonPositivePay)?;
    put_unless(&mut kinds, covered, AlarmKind::PartialPay)?;
    put_unless(&mut kinds, fits, AlarmKind::Leaves128)?;
    Ok(Conclusion {
        kinds,
        known: Some(known),
    })
}

/// A Let of a value (Marlowe specification version 3, "Let"): an alarm where the name is bound, and one that a number
/// leaves 128 bits, unless the value's numbers are shown to fit.
pub fn bind(
    alloc: Global,
    known: Known,
    name: &Text,
    value: &Value,
) -> Result<Conclusion<Known>, Memory>
    ensures { IfOk result (BindsSo IsDescribed known name.now (value_tree value.now)) }
{
    let mut known = known;
    let bound = evaluate(&mut known, value)?;
    let shadows = known.is_bound(name);
    known.set_bound(name, bound.number)?;
    let mut kinds = Items::new(alloc);
    put_unless(&mut kinds, !shadows, AlarmKind::Shadowing)?;
    put_unless(&mut kinds, bound.fits, AlarmKind::Leaves128)?;
    Ok(Conclusion {
        kinds,
        known: Some(known),
    })
}

// Whether that can't be.
pub(crate) fn is_impossible(known: &Option<Known>) -> bool
    ensures { result ≡ is_none known.now }
{
    match known {
        None => true,
        Some(_) => false,
    }
}

/// An Assert of an observation (Marlowe specification version 3, "Assert"): an alarm that it fails, unless it is shown
/// never to be false, and one that a number leaves 128 bits, unless its numbers are shown to fit. What is known then
/// is what both truths have.
pub fn assert(
    alloc: Global,
    known: Known,
    observation: &Observation,
) -> Result<Conclusion<Known>, Memory>
    ensures { IfOk result (AssertsSo IsDescribed known (observation_tree observation.now)) }
{
    let observed = observe(&known, observation)?;
    let Observed {
        fits,
        if_true,
        if_false,
    } = observed;
    let holds = is_impossible(&if_false);
    let after = either(&known, if_true, if_false)?;
    let mut kinds = Items::new(alloc);
    put_unless(&mut kinds, holds, AlarmKind::AssertionFailed)?;
    put_unless(&mut kinds, fits, AlarmKind::Leaves128)?;
    Ok(Conclusion {
        kinds,
        known: after,
    })
}
