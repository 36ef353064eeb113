//! The words of faults: worked rows of the definitions, the contract of a function that does nothing.
ghost use Rattle.fault_words.specs.Rows.{RulesAreTold, BuildersAreTold};

/// Worked rows, each computed on the definitions.
pub fn worked_words()
    ensures rules { RulesAreTold }
    ensures builders { BuildersAreTold }
{}
