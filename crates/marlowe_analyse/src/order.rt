//! The order in which alarms are told: that of their places in the contract.
ghost use Rattle.std.specs.Prelude.{◌≡◌, ◌<◌, ◌++◌, false, true, flat_map, length, All, IfOk, OnOk};
ghost use Rattle.std.specs.List.Sorted.{IsSortedByKey};
ghost use Rattle.marlowe_analyse.specs.Order.{alarm_key, key_cmp, kind_rank, step_key};
ghost use Rattle.marlowe_analyse.specs.OrderSupport.{HasKey, StandForAll, IsNewAt, IsOldAt};

use analysis_spec::{Alarm, AlarmKind, PathStep};
use contract::Memory;
use std::alloc::Global;

/// An alarm, with the numbers by which it stands before others.
#[derive(Drop)]
#[derive_where(PartialEq, Eq, PartialOrd, Ord)]
pub(crate) struct Standing<'a> {
    key: Vec<usize>,
    #[derive_where(skip)]
    pub(crate) alarm: &'a Alarm,
}

/// The alarms in the order in which they are told. Those that are equal stand side by side.
pub(crate) fn in_order<'a>(alloc: Global, alarms: &'a [Alarm]) -> Result<Vec<Standing<'a>>, Memory>
    ensures all { IfOk result (λ all. StandForAll alarms.now all.items) }
    ensures keys { IfOk result (λ all. All HasKey all.items) }
    ensures sorted { IfOk result (λ all. IsSortedByKey (λ s. s.key.items) key_cmp all.items) }
{
    let mut standings = standings_of(alloc, alarms)?;
    standings.sort()?;
    Ok(standings)
}

/// Whether the alarm at an index is another than the one before it.
pub(crate) fn is_new(standings: &[Standing<'_>], index: usize) -> bool
    requires { index < length standings.now }
    ensures new { result ≡ true → IsNewAt standings.now index }
    ensures old { result ≡ false → IsOldAt standings.now index }
{
    if index == 0 {
        return true;
    }
    let before = &standings[index - 1];
    let this = &standings[index];
    before.key.cmp(&this.key).is_lt()
}

fn standings_of<'a>(alloc: Global, alarms: &'a [Alarm]) -> Result<Vec<Standing<'a>>, Memory>
    ensures all { IfOk result (λ all. StandForAll alarms.now all.items) }
    ensures keys { IfOk result (λ all. All HasKey all.items) }
{
    let mut standings = Vec::new(alloc);
    for alarm in alarms {
        let key = key_of(alloc, alarm)?;
        standings.push(Standing { key, alarm })?;
    }
    Ok(standings)
}

fn key_of(alloc: Global, alarm: &Alarm) -> Result<Vec<usize>, Memory>
    ensures { IfOk result (λ key. key.items ≡ alarm_key alarm.now) }
{
    let mut key = Vec::new(alloc);
    put_steps(&mut key, alarm.place.as_slice())?;
    key.push(rank(alarm.kind))?;
    Ok(key)
}

/// Puts the numbers of a place behind others.
pub(crate) fn put_steps(key: &mut Vec<usize>, place: &[PathStep]) -> Result<(), Memory>
    ensures { OnOk result (key.new.items ≡ key.old.items ++ flat_map step_key place.now) }
{
    for step in place {
        put_step(key, *step)?;
    }
    Ok(())
}

fn put_step(key: &mut Vec<usize>, step: PathStep) -> Result<(), Memory>
    ensures { OnOk result (key.new.items ≡ key.old.items ++ step_key step) }
{
    let (form, index, behind) = match step {
        PathStep::Then => (6, 0, 0),
        PathStep::Else => (7, 0, 0),
        PathStep::Action(index) => (8, index, 0),
        PathStep::Case(index) => (8, index, 1),
        PathStep::TimeoutContinuation => (9, 0, 0),
    };
    key.extend_from_slice(&[form, index, behind])?;
    Ok(())
}

fn rank(kind: AlarmKind) -> usize
    ensures { result ≡ kind_rank kind }
{
    match kind {
        AlarmKind::NonPositiveDeposit => 0,
        AlarmKind::NonPositivePay => 1,
        AlarmKind::PartialPay => 2,
        AlarmKind::Shadowing => 3,
        AlarmKind::AssertionFailed => 4,
        AlarmKind::Leaves128 => 5,
    }
}
