//! Worked runs, each the contract of a function that does nothing.
ghost use Rattle.keeping_up.specs.Rows.{WaitsForTheBuyer, WaitsNoLonger, WaitsForNobodyElse, LateIsTooLate, OthersKeepUp, DepositIsInTime, RefusedIsNothing, SkippedIsTooLate, DeadOnArrival, OverAtTheStart, NothingIsAsked};

/// Who keeps up in an escrow, where a party's time comes behind that of another, and where it was over before it began; and what
/// isn't asked of anybody.
pub fn worked_keeping()
    ensures waits { WaitsForTheBuyer }
    ensures over { WaitsNoLonger }
    ensures other { WaitsForNobodyElse }
    ensures late { LateIsTooLate }
    ensures others { OthersKeepUp }
    ensures deposit { DepositIsInTime }
    ensures refused { RefusedIsNothing }
    ensures skipped { SkippedIsTooLate }
    ensures dead { DeadOnArrival }
    ensures start { OverAtTheStart }
    ensures nothing { NothingIsAsked }
{}
