//! Worked rows of the definitions, the contract of a function that does nothing.
ghost use Rattle.file_parts.specs.Rows.{FilesAreNamed, FilesAreInPlace};

/// Worked rows, each computed on the definitions.
#[tactic(auto, using(crate::proofs::Worked::files_are_named, crate::proofs::Worked::files_are_in_place))]
pub fn worked_files()
    ensures named { FilesAreNamed }
    ensures placed { FilesAreInPlace }
{}
