//! Worked rows of the definitions, the contract of a function that does nothing.
ghost use Rattle.setup_refusals.specs.Rows.{LinesAreTold, MembersAreTold};

/// Worked rows, each computed on the definitions.
#[tactic(auto, using(crate::proofs::WorkedLemmas::lines_are_told, crate::proofs::WorkedLemmas::members_are_told))]
pub fn worked_refusals()
    ensures lines { LinesAreTold }
    ensures members { MembersAreTold }
{}
