//! The definitions, worked out.
ghost use Rattle.play_endings.specs.Rows.{TurnsAreOneIntent, RoundsEndWhatWasPooled, RefusalsEndIt, EndingsAreTold};

/// Worked rows, each computed on the definitions: of turns, of what was pooled, of refusals, and of lines.
pub fn worked_endings()
    ensures turns { TurnsAreOneIntent }
    ensures rounds { RoundsEndWhatWasPooled }
    ensures refusals { RefusalsEndIt }
    ensures lines { EndingsAreTold }
{}
