//! Whether earlier cases of a When take an input.
ghost use Rattle.std.specs.Prelude.{◌≡◌, true, IfOk};
ghost use Rattle.contract.specs.Tree.{value_tree, observation_tree, action_tree};
ghost use Rattle.semantics.specs.Applying.{agrees};
ghost use Rattle.analysis_walk.specs.Knowledge.{actions_before};
ghost use Rattle.analysis_steps.specs.Earlier.{AreEqual, TakesDeposit, IsDepositTaken, IsIgnoredBy, IsRefused, IsNeverSo, IsNotifyTaken};

use crate::alarms::both;
use crate::amounts::is_at_least;
use crate::choices::last_of;
use crate::reductions::is_impossible;
use analysis_values::{Known, Observed, evaluate, observe};
use contract::{Action, Case, Memory, Observation, Party, Same, Token, TryClone, Value};

// Whether two values are shown to have one number.
fn equal(known: &Known, one: &Value, other: &Value) -> Result<bool, Memory>
    ensures { IfOk result (λ yes. yes ≡ true → AreEqual known.now (value_tree one.now) (value_tree other.now)) }
{
    let mut copy = known.try_clone()?;
    let first = evaluate(&mut copy, one)?;
    let second = evaluate(&mut copy, other)?;
    let least = is_at_least(&copy, &first.number, &second.number)?;
    let most = is_at_least(&copy, &second.number, &first.number)?;
    Ok(both(least, most))
}

// Whether two deposits are of one party, into one account, of one token.
fn agree(owner: &Party, payer: &Party, token: &Token, of: &Party, by: &Party, other: &Token) -> bool
    ensures { result ≡ true → agrees owner.now payer.now token.now of.now by.now other.now ≡ true }
{
    let owners = owner.same(of);
    let payers = payer.same(by);
    let tokens = token.same(other);
    both(owners, both(payers, tokens))
}

// Whether two values are constants that differ, which needs no look at what is known.
fn are_different(one: &Value, other: &Value) -> bool {
    match (one, other) {
        (Value::Constant(a), Value::Constant(b)) => a != b,
        _ => false,
    }
}

// Whether a case takes each deposit of a value.
fn takes(
    known: &Known,
    case: &Case,
    owner: &Party,
    payer: &Party,
    token: &Token,
    value: &Value,
) -> Result<bool, Memory>
    ensures { IfOk result (λ yes. yes ≡ true → TakesDeposit known.now (action_tree case.now.action) owner.now payer.now token.now (value_tree value.now)) }
{
    match &case.action {
        Action::Deposit(of, by, other, amount) => {
            if are_different(value, amount) {
                return Ok(false);
            }
            if agree(owner, payer, token, of, by, other) {
                equal(known, value, amount)
            } else {
                Ok(false)
            }
        }
        _ => Ok(false),
    }
}

/// Whether one of the last earlier cases is shown to take each deposit of a value by one party into the account of another.
pub(crate) fn is_deposit_taken(
    known: &Known,
    earlier: &[Case],
    owner: &Party,
    payer: &Party,
    token: &Token,
    value: &Value,
) -> Result<bool, Memory>
    ensures { IfOk result (λ yes. yes ≡ true → IsDepositTaken known.now (actions_before earlier.now) owner.now payer.now token.now (value_tree value.now)) }
{
    for case in last_of(earlier) {
        let taken = takes(known, case, owner, payer, token, value)?;
        if taken {
            return Ok(true);
        }
    }
    Ok(false)
}

// What is known where a case takes no notify; none where it takes each.
fn refused_by(known: &Known, case: &Case) -> Result<Option<Known>, Memory>
    ensures { IfOk result (IsRefused known.now (action_tree case.now.action)) }
{
    match &case.action {
        Action::Notify(observation) => {
            let Observed {
                fits: _,
                if_true: _,
                if_false,
            } = observe(known, observation)?;
            Ok(if_false)
        }
        _ => Ok(Some(known.try_clone()?)),
    }
}

// What is known where none of these cases takes a notify; none where one of them takes each.
fn refused(known: &Known, cases: &[Case]) -> Result<Option<Known>, Memory>
    ensures { IfOk result (IsIgnoredBy known.now cases.now) }
{
    let mut left = known.try_clone()?;
    for case in cases {
        let next = refused_by(&left, case)?;
        match next {
            Some(known) => left = known,
            None => return Ok(None),
        }
    }
    Ok(Some(left))
}

// Whether an observation is shown to be false.
fn is_never_so(known: &Known, observation: &Observation) -> Result<bool, Memory>
    ensures { IfOk result (λ yes. yes ≡ true → IsNeverSo known.now (observation_tree observation.now)) }
{
    let observed = observe(known, observation)?;
    Ok(is_impossible(&observed.if_true))
}

/// Whether one of the last earlier cases is shown to take each notify while an observation is true.
pub(crate) fn is_notify_taken(
    known: &Known,
    earlier: &[Case],
    observation: &Observation,
) -> Result<bool, Memory>
    ensures { IfOk result (λ yes. yes ≡ true → IsNotifyTaken known.now (actions_before earlier.now) (observation_tree observation.now)) }
{
    let cases = last_of(earlier);
    let none = !has_notify(cases);
    if none {
        return Ok(false);
    }
    let left = refused(known, cases)?;
    match left {
        Some(rest) => is_never_so(&rest, observation),
        None => Ok(true),
    }
}

fn has_notify(cases: &[Case]) -> bool {
    for case in cases {
        if matches!(case.action, Action::Notify(_)) {
            return true;
        }
    }
    false
}
