//! What can be done next, in the terms of the transaction function: laws of the definitions, each the contract of a
//! function that does nothing.
ghost use Rattle.next_inputs.specs.Laws.{TakesAsComputed, ElseIsRefused, WaitsToTheLast};
ghost use Rattle.next_inputs.specs.Rows.{EqualDepositsTakeTheFirst, LeavingStops, OtherAccountIsTaken, EarlierBoundsTake, OtherOwnerIsTaken, InvertedTakesNothing, TrueNotifyTakes, StartIsTrimmed, AmountIsReadLater, WaitsUntilNinetyNine, FollowingIsAmbiguous, SumLeaves};

/// An input that takes a case does so in the transaction with that input alone, and each other input is refused.
pub fn one_input_is_computed_so()
    ensures taken { TakesAsComputed }
    ensures refused { ElseIsRefused }
{}

/// A When waits up to its last moment.
pub fn a_when_waits_to_the_last()
    ensures { WaitsToTheLast }
{}

/// Worked rows, each computed on the definitions.
pub fn worked_inputs_next()
    ensures equal { EqualDepositsTakeTheFirst }
    ensures leaving { LeavingStops }
    ensures account { OtherAccountIsTaken }
    ensures bounds { EarlierBoundsTake }
    ensures owner { OtherOwnerIsTaken }
    ensures inverted { InvertedTakesNothing }
    ensures notify { TrueNotifyTakes }
    ensures trimmed { StartIsTrimmed }
    ensures later { AmountIsReadLater }
    ensures until { WaitsUntilNinetyNine }
    ensures behind { FollowingIsAmbiguous }
    ensures sum { SumLeaves }
{}
