//! Worked rows of the definitions, the contract of a function that does nothing.
ghost use Rattle.json_forms.specs.Rows.{LettersAreCounted, MisspelledKeysAreFound, NoFormIsMeant, FewestLack};

/// Worked rows, each computed on the definitions.
pub fn worked_forms()
    ensures letters { LettersAreCounted }
    ensures misspelled { MisspelledKeysAreFound }
    ensures none { NoFormIsMeant }
    ensures fewest { FewestLack }
{}
