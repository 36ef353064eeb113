//! What is printed: worked rows of the definitions, the contract of a function that does nothing.
ghost use Rattle.marlowe_explain.specs.Rows.{InputsAreTold, LinesAreIndented, FaultsAreTold, StandingIsTold, FaultsAreMembers, StandingIsMembers};

/// Worked rows, each computed on the definitions.
pub fn worked_explanation_lines()
    ensures inputs { InputsAreTold }
    ensures indented { LinesAreIndented }
    ensures faults { FaultsAreTold }
    ensures standing { StandingIsTold }
{}

/// Worked rows of the members for tools.
pub fn worked_explanation_members()
    ensures faults { FaultsAreMembers }
    ensures standing { StandingIsMembers }
{}
