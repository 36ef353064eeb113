//! Worked lines, the contract of a function that does nothing.
ghost use Rattle.table_lines.specs.Worked.{CloseLines, PayLines, WhenLines};

/// The lines of three tables, each computed on the definitions.
pub fn worked_lines()
    ensures closes { CloseLines }
    ensures pays { PayLines }
    ensures waits { WhenLines }
{}
