//! What an explanation tells: laws and worked rows of the definitions, each the contract of a function that does nothing.
ghost use Rattle.explain_tables.specs.Explained.{ExplainedIsRefused};
ghost use Rattle.explain_tables.specs.Rows.{StepsGoDown, LinesAreTold, MembersAreTold};

/// A contract that is explained is refused by `compile`, with the fault that the explanation is of.
#[tactic(auto, using(crate::proofs::RefusedLemmas::explained_is_refused))]
pub fn explained_contracts_are_refused()
    ensures { ExplainedIsRefused }
{}

/// Worked rows, each computed on the definitions.
pub fn worked_depths()
    ensures depths { StepsGoDown }
    ensures lines { LinesAreTold }
    ensures members { MembersAreTold }
{}
