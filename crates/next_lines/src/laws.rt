//! What is printed: worked rows of the definitions, the contract of a function that does nothing.
ghost use Rattle.next_lines.specs.Rows.{DepositsAreTold, ChoicesAndNotifiesAreTold, TheWayIsTold, ClosingIsTold, AllIsToldInOrder, TheFirstAreTold, DepositsAreWritten, ChoicesAreWritten, AllIsWritten};

/// Worked rows, each computed on the definitions.
pub fn worked_lines()
    ensures deposits { DepositsAreTold }
    ensures choices { ChoicesAndNotifiesAreTold }
    ensures way { TheWayIsTold }
    ensures closing { ClosingIsTold }
    ensures lines { AllIsToldInOrder }
    ensures first { TheFirstAreTold }
    ensures written_deposits { DepositsAreWritten }
    ensures written_choices { ChoicesAreWritten }
    ensures written { AllIsWritten }
{}
