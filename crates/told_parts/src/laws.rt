//! What is written: worked rows of the definitions and a law, each the contract of a function that does nothing.
ghost use Rattle.told_parts.specs.Members.{TextsHaveMore, ToldIsAnObject};
ghost use Rattle.told_parts.specs.Rows.{MisspelledKeysAreTold, WordsAreTold, NumbersAreTold, BadStatesAreTold, MisspelledKeysAreMembers, QuotedNumbersAreMembers, QuotedNumbersStandAlone, RepeatedEntriesAreMembers, NamesAreMembers};

/// Worked rows, each computed on the definitions.
pub fn worked_lines()
    ensures misspelled { MisspelledKeysAreTold }
    ensures words { WordsAreTold }
    ensures numbers { NumbersAreTold }
    ensures bad_states { BadStatesAreTold }
{}

/// Worked rows of the members for tools.
pub fn worked_members()
    ensures misspelled { MisspelledKeysAreMembers }
    ensures quoted { QuotedNumbersAreMembers }
    ensures alone { QuotedNumbersStandAlone }
    ensures repeated { RepeatedEntriesAreMembers }
    ensures names { NamesAreMembers }
{}

/// The members of a part in braces are the compact text of one JSON object.
#[tactic(auto, using(crate::proofs::ObjectLemmas::told_is_an_object))]
pub fn told_parts_are_objects()
    ensures { ToldIsAnObject }
{}

/// The members of a part of a text have those of its value among them.
#[tactic(auto, using(crate::proofs::PieceLemmas::texts_have_more))]
pub fn told_texts_have_more()
    ensures { TextsHaveMore }
{}
