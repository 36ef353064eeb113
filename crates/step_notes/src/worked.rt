//! The definitions, worked out.
ghost use Rattle.step_notes.specs.Rows.{CasesAreTold, CasesAreMembers, LinesHaveHeads};

/// Worked rows, each computed on the definitions: of what cases wait for, and of lines behind a head.
pub fn worked_steps()
    ensures cases { CasesAreTold }
    ensures members { CasesAreMembers }
    ensures heads { LinesHaveHeads }
{}
