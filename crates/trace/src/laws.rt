//! What holds of transactions one after another: laws of the definitions, each the contract of a function that does nothing.
ghost use Rattle.trace.specs.Paths.{TransactionsLead, OpeningsLead};
ghost use Rattle.trace.specs.Traces.{TracesJoin};
ghost use Rattle.trace.specs.Warned.{WarnedAreWarnings};
ghost use Rattle.trace.specs.Rows.{TwoComeToTheThird, TwoTakeTheFirstCases, ThirdIsRefused, PayWarnsBehindTheLet};

/// Two lists of transactions, one behind the other, do what each does by itself.
pub fn traces_join()
    ensures { TracesJoin }
{}

/// What transactions leave of a contract is the part that their path leads to, and so it is of the reduction before the
/// inputs.
pub fn paths_lead()
    ensures transactions { TransactionsLead }
    ensures opening { OpeningsLead }
{}

/// The warnings that are told with their places are those of the reduction, in its order.
pub fn warned_are_the_warnings()
    ensures { WarnedAreWarnings }
{}

/// Worked traces, each computed on the definitions.
pub fn worked_traces()
    ensures two { TwoComeToTheThird }
    ensures path { TwoTakeTheFirstCases }
    ensures third { ThirdIsRefused }
    ensures warning { PayWarnsBehindTheLet }
{}
