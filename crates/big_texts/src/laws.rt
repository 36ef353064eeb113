//! Laws of the definitions and a worked row, the contracts of functions that do nothing.
ghost use Rattle.big_texts.specs.Laws.{LinesAreOfValues, OutcomesHaveTexts, StatesAreReadAlike};
ghost use Rattle.big_texts.specs.Rows.{DoublesStay};

/// The lines of values with their big numbers as texts are those of the values in which they are texts.
pub fn lines_are_of_values()
    ensures { LinesAreOfValues }
{}

/// So is the line of each outcome; and where numbers may be texts, a state with texts is read as it is without.
pub fn outcomes_have_texts()
    ensures outcomes { OutcomesHaveTexts }
    ensures states { StatesAreReadAlike }
{}

/// A worked row, computed on the definitions.
#[tactic(auto, using(crate::proofs::Worked::doubles_stay))]
pub fn worked_texts()
    ensures { DoublesStay }
{}
