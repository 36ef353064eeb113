//! Worked rows of the definitions, the contract of a function that does nothing.
ghost use Rattle.unread_notes.specs.Rows.{LinesAreTold, AHundredAreTold};

/// Worked rows, each computed on the definitions.
#[tactic(auto, using(crate::proofs::Worked::lines_are_told, crate::proofs::Worked::a_hundred_are_told))]
pub fn worked_lines()
    ensures lines { LinesAreTold }
    ensures hundred { AHundredAreTold }
{}
