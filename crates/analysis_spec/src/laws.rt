//! Promises of all places, and what a run that ends in an alarm shows: laws, each the contract of a function that does
//! nothing.
ghost use Rattle.analysis_spec.specs.CounterRuns.{WarningsBreakPromises, LeavingBreaksPromises};
ghost use Rattle.analysis_spec.specs.PlacedRuns.{WarningsHavePlaces, LeavingHasAPlace, PlacedRunsEndSo, WarningsBreakPlaces, LeavingBreaksPlaces};

/// A kind of warning that comes at no place never comes.
pub fn warnings_have_places()
    ensures { WarningsHavePlaces }
{}

/// A contract in which no number leaves 128 bits first at any place stays within 128 bits.
#[tactic(auto, using(crate::proofs::PlaceLemmas::leaving_has_a_place))]
pub fn leaving_has_a_place()
    ensures { LeavingHasAPlace }
{}

/// A run that ends in an alarm at a place ends in the alarm.
#[tactic(auto, using(crate::proofs::PlaceLemmas::placed_runs_end_so))]
pub fn placed_runs_end_so()
    ensures { PlacedRunsEndSo }
{}

/// A run that ends in a warning at a place shows that such warnings come there.
#[tactic(auto, using(crate::proofs::PlaceLemmas::warnings_break_places))]
pub fn warnings_break_places()
    ensures { WarningsBreakPlaces }
{}

/// A run that ends because a number leaves 128 bits, first at a place, shows that numbers do so there.
#[tactic(auto, using(crate::proofs::PlaceLemmas::leaving_breaks_places))]
pub fn leaving_breaks_places()
    ensures { LeavingBreaksPlaces }
{}

/// A run that ends in a warning shows that such warnings come.
#[tactic(auto, using(crate::proofs::CounterRunLemmas::warnings_break_promises))]
pub fn warnings_break_promises()
    ensures { WarningsBreakPromises }
{}

/// A run that ends because a number leaves 128 bits shows that the contract doesn't stay within them.
#[tactic(auto, using(crate::proofs::CounterRunLemmas::leaving_breaks_promises))]
pub fn leaving_breaks_promises()
    ensures { LeavingBreaksPromises }
{}
