//! Laws of the definitions, each the contract of a function that does nothing.
ghost use Rattle.closing_times.specs.Closing.{ClosesFromLast};
ghost use Rattle.closing_times.specs.Rows.{CloseHasNone, WaitingCloses, WaitingStays, CaseCountsToo, PastIsRefused};

use semantics::{contracts_close_after_the_last_timeout, turns_lead_to_the_remaining_contract};

/// A contract that stays within 128 bits can be closed from its last timeout on, after any run: what a run leaves of a
/// contract is a part of it, and has no later timeout.
pub fn contracts_close_from_their_last_timeout()
    ensures { ClosesFromLast }
{
    contracts_close_after_the_last_timeout();
    turns_lead_to_the_remaining_contract();
}

/// Worked closings, each computed on the definitions.
pub fn worked_closings()
    ensures none { CloseHasNone }
    ensures waiting { WaitingCloses }
    ensures early { WaitingStays }
    ensures case { CaseCountsToo }
    ensures past { PastIsRefused }
{}
