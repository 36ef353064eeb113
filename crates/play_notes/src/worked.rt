//! The definition of the notes, worked out.
ghost use Rattle.play_notes.specs.Rows.{RefusalsAreTold, NoNotesArePlain};

/// The notes of small histories: of a refused submit and of a round that refuses one place; and of none.
pub fn worked_notes()
    ensures refusals { RefusalsAreTold }
    ensures plain { NoNotesArePlain }
{}
