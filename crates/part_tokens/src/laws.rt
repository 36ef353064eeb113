//! Worked rows of the definitions, the contract of a function that does nothing.
ghost use Rattle.part_tokens.specs.Rows.{PartsBeginWithTheirTokens, NothingIsThere};

/// Worked rows, each computed on the definitions.
pub fn worked_parts()
    ensures parts { PartsBeginWithTheirTokens }
    ensures nothing { NothingIsThere }
{}
