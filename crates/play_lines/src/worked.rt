//! The definition of the lines, worked out.
ghost use Rattle.play_lines.specs.Worked.{NothingCalled, OneOfEach, NoneTaken};

/// The lines of small histories: where nothing was called; of a refused submit, a round of two and a closed thread; of a round
/// that takes none and a thread that nobody stepped.
pub fn worked_lines()
    ensures nothing { NothingCalled }
    ensures each { OneOfEach }
    ensures none { NoneTaken }
{}
