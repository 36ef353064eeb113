//! The definitions, worked out.
ghost use Rattle.play_holdings.specs.Rows.{KindsStandInOrder, EachKindStandsInOrder, LocksTellHolders, OutputsAreSummed, HoldingsArePrinted};

/// Worked rows, each computed on the definitions: the order of holders, who holds an output, sums, and lines.
pub fn worked_holdings()
    ensures kinds { KindsStandInOrder }
    ensures each { EachKindStandsInOrder }
    ensures locks { LocksTellHolders }
    ensures sums { OutputsAreSummed }
    ensures lines { HoldingsArePrinted }
{}
