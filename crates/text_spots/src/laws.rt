//! Worked rows of the definitions, the contract of a function that does nothing.
ghost use Rattle.text_spots.specs.Rows.{LinesEndAtLineFeeds, ColumnsAreScalarValues, MarksAreNone, NothingIsHidden, SixtyAreShown, PathsAreCut};

/// Worked rows, each computed on the definitions.
pub fn worked_spots()
    ensures lines { LinesEndAtLineFeeds }
    ensures columns { ColumnsAreScalarValues }
    ensures marks { MarksAreNone }
    ensures hidden { NothingIsHidden }
    ensures sixty { SixtyAreShown }
    ensures paths { PathsAreCut }
{}
