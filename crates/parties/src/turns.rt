//! Turns: to look, to build on it, and to hand it in.
ghost use Rattle.std.specs.Prelude.{◌≡◌, ◌≤◌, true, length, map, slice_get, Some, if◌then◌else◌, IfOk, IfSome, MatchResult, OnOk, OnErr};
ghost use Rattle.std.specs.List.{Contains};
ghost use Rattle.hub.specs.Ledger.declared.call.Call.TheVariants as on;
ghost use Rattle.hub.specs.EutxoTypes.declared.tx.Tx.{Tx};
ghost use Rattle.parties.specs.Plays.{IsLeftOut, added, asks_of};
ghost use Rattle.parties.specs.PlaysSupport.{AreShown, handed, HandsIn, LeavesOut, call_of};
ghost use Rattle.parties.specs.PlaysSupport.{WasNoted, AtMostNoted, Went, WentNoted, WasShown};

use crate::acts::Act;
use crate::building::{Shown, asks_of, built, checked, looks_in};
use crate::left_out::{LeftOut, left_out};
use crate::means::Means;
use crate::watch::Watch;
use builder::BuildFault;
use contract::{Bytes, Memory, TryClone};
use hub::{Call, OutputRef, Receipt, Reply, Seat, Session, Tx, TxFault};
use plans::{Intent, Plan};
use std::alloc::Global;
use std::sync::Wait;
use std::thread::Threads;

// How many turns an intent has: one, and 16 more where another was faster.
const TURNS: u32 = 17;

// Whether another was faster, by the last receipt: an output that was to be spent is spent.
fn is_overtaken<J: Session>(receipts: &[Receipt<J>]) -> bool {
    match receipts.last() {
        Some(last) => matches!(last.reply(), Reply::Refused(TxFault::NotUnspent(_))),
        None => false,
    }
}

// Whether what is made of an intent is put into the pool.
fn is_pooled(intent: &Intent<OutputRef, Bytes>) -> bool
    ensures { (tx : Tx) → handed intent.now tx ≡ (if result then on.Enqueue tx else on.Submit tx) }
{
    match intent {
        Intent::Step { pooled, .. } => *pooled,
        Intent::Steps { pooled, .. } => *pooled,
        Intent::Claim { .. } => false,
        Intent::Round { .. } => false,
        Intent::Advance(_) => false,
    }
}

// What hands in a transaction that was made of looks.
fn act_of(
    alloc: Global,
    intent: &Intent<OutputRef, Bytes>,
    looks: &[Shown<'_>],
    tx: Tx,
) -> Result<Act, Memory>
    ensures { IfOk result (λ act. call_of act ≡ handed intent.now tx) }
{
    if is_pooled(intent) {
        Ok(Act::Call(Call::Enqueue(tx)))
    } else {
        Ok(Act::Admit(checked(alloc, looks, tx)?))
    }
}

// What a party does with what it was shown for an intent, or what hinders that.
fn next_of<J: Session>(
    alloc: Global,
    plan: &Plan<OutputRef, Bytes>,
    intent: &Intent<OutputRef, Bytes>,
    shown: &[Receipt<J>],
) -> Result<Option<Result<Act, BuildFault>>, Memory>
    requires { AreShown shown.now }
    ensures { IfOk result (λ next. IfSome next (λ made. MatchResult made
        (λ act. HandsIn plan.now intent.now shown.now (call_of act)) (LeavesOut plan.now intent.now shown.now))) }
{
    let looks = looks_in(alloc, shown)?;
    match built(alloc, plan, intent, &looks)? {
        Some(Ok(tx)) => {
            let act = act_of(alloc, intent, &looks, tx)?;
            Ok(Some(Ok(act)))
        }
        Some(Err(fault)) => Ok(Some(Err(fault))),
        None => Ok(None),
    }
}

/// Does one thing, unless the party has stopped, and keeps its receipt. Whether it did.
pub(crate) fn noted<R: Threads + Wait + Sync, J: Session, W: Watch>(
    means: &Means<'_, R, J, W>,
    act: Act,
    seat: &mut Seat<J>,
    receipts: &mut Vec<Receipt<J>>,
) -> Result<bool, Memory>
    ensures ok { OnOk result
        (AtMostNoted means.now.plan.now (call_of act) seat.old seat.new receipts.old.items receipts.new.items) }
    ensures made { IfOk result (λ made. made ≡ true →
        WasNoted means.now.plan.now (call_of act) seat.old seat.new receipts.old.items receipts.new.items) }
    ensures err { OnErr result (seat.new ≡ seat.old) }
{
    if means.is_over(seat) {
        return Ok(false);
    }
    receipts.reserve(1)?;
    let told = means.act(seat, act)?;
    receipts.push_reserved(told);
    Ok(true)
}

// Looks at all that an intent asks to be shown, in order. Whether all was shown: else the party has stopped.
fn look_at_all<R: Threads + Wait + Sync, J: Session, W: Watch>(
    means: &Means<'_, R, J, W>,
    intent: &Intent<OutputRef, Bytes>,
    seat: &mut Seat<J>,
    receipts: &mut Vec<Receipt<J>>,
) -> Result<bool, Memory>
    requires { Contains means.now.plan.now.intents intent.now }
    ensures ok { OnOk result (WentNoted means.now.plan.now seat.old seat.new receipts.old.items receipts.new.items) }
    ensures more { OnOk result (length receipts.old.items ≤ length receipts.new.items) }
    ensures all { let plan = means.now.plan.now in IfOk result (λ all. all ≡ true →
        WasShown plan (asks_of plan intent.now) seat.old seat.new receipts.old.items receipts.new.items) }
    ensures err { OnErr result (Went means.now.plan.now seat.old seat.new) }
{
    let asks = asks_of(means.alloc, means.plan, intent)?;
    for ask in &asks {
        let asked = ask.try_clone()?;
        let made = noted(means, Act::Call(Call::Look(asked)), seat, receipts)?;
        if !made {
            return Ok(false);
        }
    }
    Ok(true)
}

// What is told of an intent that is left out, where it is to be told.
fn told_out<R: Threads + Wait + Sync, J: Session, W: Watch>(
    means: &Means<'_, R, J, W>,
    place: usize,
    shown: &[Receipt<J>],
    fault: BuildFault,
) -> Result<Option<LeftOut>, Memory>
    ensures { IfOk result (λ told. IfSome told (λ left.
        (left.intent ≡ place) × (left.looks.items ≡ map (λ r. r.entry) shown.now) × (left.fault ≡ fault))) }
{
    if means.tells {
        let left = left_out(means.alloc, place, shown, fault)?;
        Ok(Some(left))
    } else {
        Ok(None)
    }
}

// One turn of the intent at a place of the plan: it looks at all that is asked for, builds on what it is shown, and hands that
// in. Whether another was faster; else what was left out.
fn turn<R: Threads + Wait + Sync, J: Session, W: Watch>(
    means: &Means<'_, R, J, W>,
    place: usize,
    intent: &Intent<OutputRef, Bytes>,
    seat: &mut Seat<J>,
    receipts: &mut Vec<Receipt<J>>,
) -> Result<(bool, Option<LeftOut>), Memory>
    requires has { Contains means.now.plan.now.intents intent.now }
    requires at { slice_get means.now.plan.now.intents place ≡ Some intent.now }
    ensures ok { OnOk result (WentNoted means.now.plan.now seat.old seat.new receipts.old.items receipts.new.items) }
    ensures left { IfOk result (λ turned. IfSome turned.1 (IsLeftOut means.now.plan.now (added seat.old seat.new))) }
    ensures err { OnErr result (Went means.now.plan.now seat.old seat.new) }
{
    let before = receipts.len();
    let all = look_at_all(means, intent, seat, receipts)?;
    if !all {
        return Ok((false, None));
    }
    let shown = &receipts.as_slice()[before..];
    let next = next_of(means.alloc, means.plan, intent, shown)?;
    match next {
        Some(Ok(act)) => {
            noted(means, act, seat, receipts)?;
            Ok((is_overtaken(receipts.as_slice()), None))
        }
        Some(Err(fault)) => {
            let left = told_out(means, place, shown, fault)?;
            Ok((false, left))
        }
        None => Ok((false, None)),
    }
}

/// The turns of the intent at a place of the plan, which asks to be shown something: another one as long as others are faster,
/// up to 17. What was left out.
pub(crate) fn turns<R: Threads + Wait + Sync, J: Session, W: Watch>(
    means: &Means<'_, R, J, W>,
    place: usize,
    intent: &Intent<OutputRef, Bytes>,
    seat: &mut Seat<J>,
    receipts: &mut Vec<Receipt<J>>,
) -> Result<Option<LeftOut>, Memory>
    requires has { Contains means.now.plan.now.intents intent.now }
    requires at { slice_get means.now.plan.now.intents place ≡ Some intent.now }
    ensures ok { OnOk result (WentNoted means.now.plan.now seat.old seat.new receipts.old.items receipts.new.items) }
    ensures left { IfOk result (λ told. IfSome told (IsLeftOut means.now.plan.now (added seat.old seat.new))) }
    ensures err { OnErr result (Went means.now.plan.now seat.old seat.new) }
{
    for _ in 0..TURNS {
        let (again, left) = turn(means, place, intent, seat, receipts)?;
        if !again {
            return Ok(left);
        }
    }
    Ok(None)
}
