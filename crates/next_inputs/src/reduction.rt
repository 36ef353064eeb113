//! Where a contract stands when the inputs of a transaction come.
ghost use Rattle.std.specs.Prelude.{◌≡◌, ◌≢◌, ◌↔◌, IfOk, IfErr, IsTrue};
ghost use Rattle.contract.specs.Collections.Answers.{AsideBy};
ghost use Rattle.semantics.specs.Walk.{answer_of};
ghost use Rattle.semantics.specs.Transaction.{begun};
ghost use Rattle.next_inputs.specs.Opening.{opening, standing_at, OpeningLeads, AcceptsNoInputs};
ghost use Rattle.next_inputs.specs.OpeningSupport.{untouched};

use contract::{Interval, Items, Outcome, SemFault, State, TryClone};
use semantics::Steps;
use semantics::evaluation::Parts;
use std::alloc::Global;

/// Where a contract stands when the inputs of a transaction come.
#[derive(Drop)]
pub struct Opened<P> {
    /// The warnings and payments of the reduction before the inputs, the state that it leaves, whose minimum time is the
    /// interval's start as it is fixed, and the place of the contract that is left.
    pub outcome: Outcome<P>,
    /// Whether a transaction without inputs is accepted: it is, where there is something to reduce.
    pub can_reduce: bool,
}

/// Fixes the interval and reduces until all is quiet (Marlowe specification version 3, "Compute transaction"): what a
/// transaction does before its inputs. The fault is `InvalidInterval`, `IntervalInPast`, `Ambiguous` or `Leaves128`, as a
/// transaction would be refused; or `Memory`.
pub fn opening<S: Parts>(
    alloc: Global,
    parts: &S,
    place: S::Place,
    state: &State,
    interval: Interval,
) -> Result<Opened<S::Place>, SemFault>
    requires { S.contains parts.now place }
    ensures answer { AsideBy SemFault.Memory (λ o. standing_at (S.tree parts.now) o.outcome) result
        (answer_of (opening interval state.now (S.tree parts.now place))) }
    ensures warnings { IfOk result (λ o. o.outcome.warnings ≡ (opening interval state.now (S.tree parts.now place)).warnings) }
    ensures payments { IfOk result (λ o. o.outcome.payments ≡ (opening interval state.now (S.tree parts.now place)).payments) }
    ensures place { IfOk result (λ o. OpeningLeads (S.leads parts.now) (S.tree parts.now) interval state.now place o.outcome) }
    ensures can_reduce { IfOk result (λ o. IsTrue o.can_reduce ↔ AcceptsNoInputs interval state.now (S.tree parts.now place)) }
{
    match parts.compute(alloc, &place, state, interval, &[]) {
        Ok(outcome) => Ok(Opened {
            outcome,
            can_reduce: true,
        }),
        Err(fault) => match untouched(alloc, place, state, interval, fault) {
            Ok(opened) => Ok(opened),
            Err(fault) => Err(fault),
        },
    }
}

// Nothing is reduced, where the transaction without inputs is useless; else it is refused.
fn untouched<P: Copy>(
    alloc: Global,
    place: P,
    state: &State,
    interval: Interval,
    fault: SemFault,
) -> Result<Opened<P>, SemFault>
    ensures useless { IfOk result (λ o. fault ≡ SemFault.Useless) }
    ensures done { IfOk result (λ o. o ≡ untouched (begun interval state.now) place) }
    ensures refused { IfErr result (λ f. f ≢ SemFault.Memory → (f ≡ fault) × (fault ≢ SemFault.Useless)) }
{
    match fault {
        SemFault::Useless => {
            let mut state = state.try_clone()?;
            state.set_min_time(interval.from.max(state.min_time()));
            Ok(Opened {
                outcome: Outcome {
                    warnings: Items::new(alloc),
                    payments: Items::new(alloc),
                    state,
                    place,
                },
                can_reduce: false,
            })
        }
        other => Err(other),
    }
}
