//! The law, the contract of a function that does nothing.
ghost use Rattle.unread_laws.specs.ReadersForms.{ReadersTakeTheseForms};

/// Of the sorts of several forms, the first form of an object whose keys are all there is the one that the readers take.
pub fn readers_take_these_forms()
    ensures { ReadersTakeTheseForms }
{}
