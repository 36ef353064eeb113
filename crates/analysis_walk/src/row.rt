//! What one party is paid of one token, over closes.
ghost use Rattle.std.specs.Prelude.{◌<◌, ◌≤◌, ◌^◌, ◌-◌, ℤ, suc};
ghost use Rattle.analysis_walk.specs.Spans.{IsIn};
ghost use Rattle.analysis_walk.specs.Rows.{Names, IsPaid};

use crate::span::Span;

/// What the owner of an account is paid of its token at closes.
#[derive(Clone, Copy, Debug)]
pub(crate) struct Row {
    /// At the closes that name it.
    pub(crate) span: Span,
    /// Each of so many closes, the first ones, names it.
    pub(crate) met: u64,
}

// How many closes, the first ones, name it, after one more that does.
fn met_with(met: u64, before: u64) -> u64
    requires { before < 2 ^ 64 - 1 }
    ensures most { result ≤ suc before }
    ensures missed { met < before → result < before }
{
    if met < before { met } else { before + 1 }
}

/// The row after one more close, which names the account, and before which there were so many.
#[tactic(auto, using(crate::proofs::RowLemmas::names_some, crate::proofs::RowLemmas::names_none))]
pub(crate) fn named(row: Option<Row>, span: Span, before: u64) -> Row
    requires { before < 2 ^ 64 - 1 }
    ensures { Names before row span result }
{
    match row {
        Some(row) => {
            let met = met_with(row.met, before);
            let both = row.span.joined(span);
            Row { span: both, met }
        }
        None => {
            let met = met_with(0, before);
            Row { span, met }
        }
    }
}

/// All that is paid at so many closes, of which a row tells.
#[tactic(auto, using(crate::proofs::RowLemmas::paid_joined, crate::proofs::RowLemmas::paid_met, crate::proofs::RowLemmas::paid_none))]
pub(crate) fn paid_span(row: Option<Row>, count: u64) -> Span
    ensures { (n : ℤ) → IsPaid count row n → IsIn result n }
{
    let none = Span::nothing();
    let Some(row) = row else {
        return none;
    };
    if row.met < count {
        return row.span.joined(none);
    }
    row.span
}
