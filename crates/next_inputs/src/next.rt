//! What can be done with a transaction over an interval.
ghost use Rattle.std.specs.Prelude.{◌≡◌, ◌↔◌, IfOk, IsTrue};
ghost use Rattle.contract.specs.Collections.Answers.{AsideBy};
ghost use Rattle.semantics.specs.Walk.{answer_of};
ghost use Rattle.semantics.specs.Transaction.{trimmed};
ghost use Rattle.next_inputs.specs.Opening.{opening, standing_at, OpeningLeads, AcceptsNoInputs};
ghost use Rattle.next_inputs.specs.Offers.{AreOffersAt, OffersWhatIsTaken};

use crate::cases::offers;
use crate::offer::Offer;
use crate::reduction::{Opened, opening};
use contract::{Interval, Items, SemFault, State};
use semantics::evaluation::Parts;
use std::alloc::Global;

/// What can be done with a contract over an interval.
#[derive(Drop)]
pub struct NextInputs<P> {
    /// Where the contract stands when the inputs come, with the warnings and payments up to there.
    pub opening: Opened<P>,
    /// What each case of the contract that is left offers.
    pub offers: Items<Offer>,
}

/// What can be done with a transaction over an interval: an input is offered exactly where, with this one input, a case is
/// taken and no number that was visited up to there leaves 128 bits, and it is offered by that case. What follows the case
/// may still be refused, as Ambiguous or because a number leaves 128 bits. The fault is that of the reduction before the
/// inputs: `InvalidInterval`, `IntervalInPast`, `Ambiguous` or `Leaves128`; or `Memory`.
pub fn next_inputs<S: Parts>(
    alloc: Global,
    parts: &S,
    place: S::Place,
    state: &State,
    interval: Interval,
) -> Result<NextInputs<S::Place>, SemFault>
    requires { S.contains parts.now place }
    ensures answer { AsideBy SemFault.Memory (λ o. standing_at (S.tree parts.now) o.opening.outcome) result
        (answer_of (opening interval state.now (S.tree parts.now place))) }
    ensures warnings { IfOk result (λ o. o.opening.outcome.warnings ≡ (opening interval state.now (S.tree parts.now place)).warnings) }
    ensures payments { IfOk result (λ o. o.opening.outcome.payments ≡ (opening interval state.now (S.tree parts.now place)).payments) }
    ensures place { IfOk result (λ o. OpeningLeads (S.leads parts.now) (S.tree parts.now) interval state.now place o.opening.outcome) }
    ensures can_reduce { IfOk result (λ o. IsTrue o.opening.can_reduce ↔ AcceptsNoInputs interval state.now (S.tree parts.now place)) }
    ensures offers { IfOk result (λ o. AreOffersAt (S.tree parts.now) (trimmed interval state.now) o.opening.outcome o.offers) }
    ensures exact { IfOk result (λ o. OffersWhatIsTaken (S.tree parts.now) interval state.now place o.opening.outcome o.offers) }
{
    let opened = opening(alloc, parts, place, state, interval)?;
    let fixed = fixed(interval, state);
    let left = place_left(&opened);
    let offers = offers(alloc, parts, left, &opened.outcome.state, fixed)?;
    Ok(NextInputs {
        opening: opened,
        offers,
    })
}

fn place_left<P: Copy>(opened: &Opened<P>) -> P
    ensures { result ≡ opened.now.outcome.place }
{
    opened.outcome.place
}

// The interval with its start moved up to the minimum time.
fn fixed(interval: Interval, state: &State) -> Interval
    ensures { result ≡ trimmed interval state.now }
{
    Interval {
        from: interval.from.max(state.min_time()),
        to: interval.to,
    }
}
