//! Worked rows of the definitions, the contract of a function that does nothing.
ghost use Rattle.explanations.specs.Rows.{BrokenTextsAreTold, BrokenTextsAreMembers};

/// Worked rows of texts that are no JSON or too long, each computed on the definitions.
pub fn worked_texts()
    ensures lines { BrokenTextsAreTold }
    ensures members { BrokenTextsAreMembers }
{}
