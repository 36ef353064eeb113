//! Worked promises: laws, each the contract of a function that does nothing.
ghost use Rattle.analysis_spec.specs.Rows.{EmptyPayWarns, RefusedPayWarns, ZeroPayWarns, ZeroDepositWarns, SecondLetWarns, FalseAssertWarns, LeastByMinusOneLeaves};
ghost use Rattle.analysis_spec.specs.Rows.{SecondPaysPartly, FirstPaysAll, FirstActionWarns, WhatFollowsIsSilent, SecondActionIsSilent, TriedCaseLeaves, LaterCaseStays, SecondBindingShadows, FirstBindingIsNew};
ghost use Rattle.analysis_spec.specs.Rows.{RootIsReached, FirstCaseIsReached, RefusedRunReaches, SecondRunReaches};
ghost use Rattle.analysis_spec.specs.Rows.{ThreeArePaid, TwoAreTooFew, FourAreTooMany, RefusedPaysNothing};

use semantics::{worked_inputs, worked_reductions};

/// Contracts that don't keep a promise: one for each kind of alarm, and one whose transaction is refused after it
/// warned.
pub fn worked_warnings()
    ensures partial { EmptyPayWarns }
    ensures refused { RefusedPayWarns }
    ensures zero_pay { ZeroPayWarns }
    ensures zero_deposit { ZeroDepositWarns }
    ensures shadowing { SecondLetWarns }
    ensures assertion { FalseAssertWarns }
    ensures leaves_128 { LeastByMinusOneLeaves }
{
    worked_reductions();
    worked_inputs();
}

/// Runs that end in an alarm at a place, and places at which they don't: before it, behind it, and at a case that doesn't
/// take the input.
pub fn worked_places()
    ensures second_pay { SecondPaysPartly }
    ensures first_pay { FirstPaysAll }
    ensures first_action { FirstActionWarns }
    ensures behind_it { WhatFollowsIsSilent }
    ensures second_action { SecondActionIsSilent }
    ensures tried { TriedCaseLeaves }
    ensures later { LaterCaseStays }
    ensures second_binding { SecondBindingShadows }
    ensures first_binding { FirstBindingIsNew }
{}

/// Places that a run reaches: where it starts, and what it goes on to, also where its last transaction is refused behind that.
pub fn worked_reaches()
    ensures root { RootIsReached }
    ensures first_case { FirstCaseIsReached }
    ensures refused { RefusedRunReaches }
    ensures second { SecondRunReaches }
{}

/// What a party is paid in a run, and bounds that are broken by it.
pub fn worked_payments()
    ensures paid { ThreeArePaid }
    ensures above { TwoAreTooFew }
    ensures below { FourAreTooMany }
    ensures refused { RefusedPaysNothing }
{
    worked_reductions();
}
