//! What an explanation tells, in the terms of the transaction function: laws of the definitions, each the contract of a function that
//! does nothing.
ghost use Rattle.explain_transactions.specs.Laws.{ExplainedIsRefused, FirstIsTold, PlacesStand, PlacesAreLed, WaitingIsSettled};
ghost use Rattle.explain_transactions.specs.Rows.{SecondIsUnmatched, TimeoutIsInside, SumIsTold};

/// A transaction that is explained is refused, with the fault that the explanation is of.
#[tactic(auto, using(crate::proofs::RefusedLemmas::explained_is_refused))]
pub fn explained_transactions_are_refused()
    ensures { ExplainedIsRefused }
{}

/// The input that is told is the first that is refused: with those before it the transaction is accepted or does nothing, and with
/// it alone behind them it is refused for it.
pub fn the_first_input_is_told()
    ensures { FirstIsTold }
{}

/// The place that is told is where the contract stands: the path leads there, and so do the turns of the transaction function up to
/// where no case takes the input.
pub fn places_are_where_it_stands()
    ensures stands { PlacesStand }
    ensures led { PlacesAreLed }
{}

/// Where the contract waits when an input comes, nothing is left to reduce: so what can be done next there is what its cases take.
pub fn waiting_is_settled()
    ensures { WaitingIsSettled }
{}

/// Worked rows, each computed on the definitions.
pub fn worked_explanations()
    ensures unmatched { SecondIsUnmatched }
    ensures ambiguous { TimeoutIsInside }
    ensures sum { SumIsTold }
{}
