//! Parts of a contract at places.
ghost use Rattle.std.specs.Prelude.{◌≡◌, true, map, option_map};
ghost use Rattle.contract.specs.Tree.{case_tree, case_trees, contract_tree};
ghost use Rattle.alike_alarms.specs.Alike.{part_at, case_at, case_of, AreAlike};
ghost use Rattle.alike_alarms.specs.AlikeSupport.{part_of};

use analysis_spec::{Alarm, AlarmKind, PathStep};
use analysis_walk::part_behind;
use contract::{Case, Contract, Same};

/// What stands at a place.
#[derive(Clone, Copy)]
pub(crate) enum Part<'a> {
    /// A contract.
    Whole(&'a Contract),
    /// The case of an action.
    OfAction(&'a Case),
}

/// Whether two alarms are of one kind, at equal parts.
pub(crate) fn are_alike(contract: &Contract, a: &Alarm, b: &Alarm) -> bool
    ensures { result ≡ true → AreAlike (contract_tree contract.now) a.now b.now }
{
    let same = is_same_kind(a.kind, b.kind);
    if !same {
        return false;
    }
    let one = part_at(contract, a.place.as_slice());
    let other = part_at(contract, b.place.as_slice());
    match one {
        Some(one) => match other {
            Some(other) => is_same(one, other),
            None => false,
        },
        None => false,
    }
}

fn is_same_kind(a: AlarmKind, b: AlarmKind) -> bool
    ensures { result ≡ true → a ≡ b }
{
    match a {
        AlarmKind::NonPositiveDeposit => matches!(b, AlarmKind::NonPositiveDeposit),
        AlarmKind::NonPositivePay => matches!(b, AlarmKind::NonPositivePay),
        AlarmKind::PartialPay => matches!(b, AlarmKind::PartialPay),
        AlarmKind::Shadowing => matches!(b, AlarmKind::Shadowing),
        AlarmKind::AssertionFailed => matches!(b, AlarmKind::AssertionFailed),
        AlarmKind::Leaves128 => matches!(b, AlarmKind::Leaves128),
    }
}

// The part at a place, if there is one.
fn part_at<'a>(contract: &'a Contract, place: &[PathStep]) -> Option<Part<'a>>
    ensures { option_map part_of result ≡ part_at place.now (contract_tree contract.now) }
{
    let mut at = contract;
    for step in place {
        match part_behind(at, *step) {
            Some(part) => at = part,
            None => return case_of(at, *step),
        }
    }
    Some(Part::Whole(at))
}

// The case whose action a step leads to.
fn case_of(contract: &Contract, step: PathStep) -> Option<Part<'_>>
    ensures { option_map part_of result ≡ case_of (contract_tree contract.now) step }
{
    match contract {
        Contract::When(cases, _, _) => match step {
            PathStep::Action(index) => case_at(cases.as_slice(), index),
            _ => None,
        },
        Contract::Close
        | Contract::Pay(_, _, _, _, _)
        | Contract::If(_, _, _)
        | Contract::Let(_, _, _)
        | Contract::Assert(_, _) => None,
    }
}

fn case_at(cases: &[Case], index: usize) -> Option<Part<'_>>
    ensures { option_map part_of result ≡ case_at (case_trees (map case_tree cases.now)) index }
{
    match cases.get(index) {
        Some(case) => Some(Part::OfAction(case)),
        None => None,
    }
}

fn is_same(a: Part<'_>, b: Part<'_>) -> bool
    ensures { result ≡ true → part_of a.entry ≡ part_of b.entry }
{
    match a {
        Part::Whole(one) => match b {
            Part::Whole(other) => one.same(other),
            Part::OfAction(_) => false,
        },
        Part::OfAction(one) => match b {
            Part::Whole(_) => false,
            Part::OfAction(other) => one.same(other),
        },
    }
}
