//! What a trace has to do with runs: laws of the definitions, each the contract of a function that does nothing.
ghost use Rattle.marlowe_trace.specs.Laws.{OneIsARun, TraceIsRuns};

/// The trace of one transaction prints what its run prints, and refuses what that refuses.
pub fn one_transaction_is_a_run()
    ensures { OneIsARun }
{}

/// A trace prints what runs print that are made one after another, each from texts that are read as the contract and the state
/// that the one before it has left.
pub fn a_trace_is_runs()
    ensures { TraceIsRuns }
{}
