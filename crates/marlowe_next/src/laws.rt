//! What is asked and told: worked rows of the definitions, the contract of a function that does nothing.
ghost use Rattle.marlowe_next.specs.Rows.{TimesFollowTheMinimum, LeadsToTheThird, WhatFollowsIsRefused};

/// Worked rows, each computed on the definitions.
pub fn worked_answers()
    ensures times { TimesFollowTheMinimum }
    ensures after { LeadsToTheThird }
    ensures refused { WhatFollowsIsRefused }
{}
