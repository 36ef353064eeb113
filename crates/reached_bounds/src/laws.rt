//! Laws of the definitions, each the contract of a function that does nothing.
ghost use Rattle.reached_bounds.specs.Reached.{MostIsNotLower, LeastIsNotHigher, LossIsNotLower};
ghost use Rattle.reached_bounds.specs.Rows.{FiveArePaid, FiveAreLost, FourAreNotLost, RefusedIsNoRun, NothingIsPaidYet, NothingIsLostYet, MovedIsNotPaid};

/// A bound that a run reaches is exact: no promise has a better one.
#[tactic(auto, using(crate::proofs::ExactLemmas::most_is_not_lower, crate::proofs::ExactLemmas::least_is_not_higher, crate::proofs::ExactLemmas::loss_is_not_lower))]
pub fn reached_bounds_are_exact()
    ensures most { MostIsNotLower }
    ensures least { LeastIsNotHigher }
    ensures loss { LossIsNotLower }
{}

/// Worked runs: what is paid and lost by one, and such as aren't accepted or don't close the contract.
pub fn worked_reaches()
    ensures paid { FiveArePaid }
    ensures lost { FiveAreLost }
    ensures less { FourAreNotLost }
    ensures refused { RefusedIsNoRun }
    ensures before { NothingIsPaidYet }
    ensures open { NothingIsLostYet }
    ensures account { MovedIsNotPaid }
{}
