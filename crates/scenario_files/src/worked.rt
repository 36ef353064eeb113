//! Worked rows of the definitions, the contract of a function that does nothing.
ghost use Rattle.scenario_files.specs.Rows.{RefusalsAreTold};

/// Worked rows, each computed on the definitions.
#[tactic(auto, using(crate::proofs::WorkedLemmas::refusals_are_told))]
pub fn worked_refusals()
    ensures { RefusalsAreTold }
{}
