//! What holds of texts of transactions: laws of the definitions, each the contract of a function that does nothing.
ghost use Rattle.json_read_transactions.specs.ReadsTransactions.{OneIsReadAlone, RestIsRead};
ghost use Rattle.json_read_transactions.specs.Rows.{NoneIsRead, BlankLinesAreLeftOut, FourAreRead, FaultsAreNumbered, TenThousandAreRead};

/// A text of one transaction is read as that one alone, and the texts behind it are read by themselves as they are behind it.
pub fn texts_are_read_one_by_one()
    ensures one { OneIsReadAlone }
    ensures rest { RestIsRead }
{}

/// Worked rows, each computed on the definitions.
pub fn worked_readings()
    ensures none { NoneIsRead }
    ensures blank { BlankLinesAreLeftOut }
    ensures four { FourAreRead }
    ensures faults { FaultsAreNumbered }
    ensures most { TenThousandAreRead }
{}
