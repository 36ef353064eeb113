//! Worked rows of the definitions, the contract of a function that does nothing.
ghost use Rattle.unread_keys.specs.Rows.{ContractsHaveNotes, StatesHaveNotes, ScenariosHaveNotes};

/// Worked rows, each computed on the definitions.
#[tactic(auto, using(crate::proofs::Worked::contracts_have_notes, crate::proofs::Worked::states_have_notes, crate::proofs::Worked::scenarios_have_notes))]
pub fn worked_notes()
    ensures contracts { ContractsHaveNotes }
    ensures states { StatesHaveNotes }
    ensures scenarios { ScenariosHaveNotes }
{}
