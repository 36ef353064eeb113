//! Where a contract stands when the inputs of a transaction come, and how it came there.
ghost use Rattle.std.specs.Prelude.{◌≡◌, ◌↔◌, [], IfOk, IsOk, IsTrue};
ghost use Rattle.contract.specs.Collections.Answers.{AsideBy};
ghost use Rattle.contract.specs.Tree.{contract_tree};
ghost use Rattle.semantics.specs.Walk.{standing, answer_of};
ghost use Rattle.semantics.specs.Transaction.{trimmed, begun};
ghost use Rattle.semantics.specs.Computed.{computed};
ghost use Rattle.next_inputs.specs.Opening.{opening};
ghost use Rattle.analysis_spec.specs.Marks.{led, settling};
ghost use Rattle.trace.specs.Warned.{warned_at};

use crate::steps::is_quiet;
use crate::trail::Trail;
use crate::warned::Warned;
use analysis_spec::PathStep;
use contract::{Contract, Interval, Items, Outcome, SemFault, State, TryClone};
use semantics::fix;
use std::alloc::Global;

/// Where a contract stands when the inputs of a transaction come, and how it came there.
#[derive(Drop)]
pub struct Settled<'c> {
    /// The warnings and payments of the reduction before the inputs, the state that it leaves, whose minimum time is the
    /// interval's start as it is fixed, and what is left of the contract.
    pub outcome: Outcome<&'c Contract>,
    /// Whether a transaction without inputs is accepted: it is, where there is something to reduce.
    pub can_reduce: bool,
    /// The steps that lead from the contract to what is left of it.
    pub path: Items<PathStep>,
    /// The warnings once more, in order, each with its place in the contract.
    pub warned: Items<Warned>,
}

/// Fixes the interval and reduces until all is quiet (Marlowe specification version 3, "Compute transaction"), as
/// `next_inputs::opening` does, and tells where in the contract that leads and where each warning comes from. The fault is
/// `InvalidInterval`, `IntervalInPast`, `Ambiguous` or `Leaves128`, as a transaction would be refused; or `Memory`.
pub fn settle<'c>(
    alloc: Global,
    contract: &'c Contract,
    state: &State,
    interval: Interval,
) -> Result<Settled<'c>, SemFault>
    ensures answer { AsideBy SemFault.Memory (λ left. standing left.outcome.state (contract_tree left.outcome.place.now)) result
        (answer_of (opening interval state.now (contract_tree contract.now))) }
    ensures warnings { IfOk result (λ left. left.outcome.warnings ≡ (opening interval state.now (contract_tree contract.now)).warnings) }
    ensures payments { IfOk result (λ left. left.outcome.payments ≡ (opening interval state.now (contract_tree contract.now)).payments) }
    ensures can_reduce { IfOk result (λ left. IsTrue left.can_reduce
        ↔ IsOk (answer_of (computed interval state.now (contract_tree contract.now) []))) }
    ensures path { IfOk result (λ left. left.path ≡ led [] (opening interval state.now (contract_tree contract.now)).turns) }
    ensures warned { IfOk result (λ left. left.warned
        ≡ warned_at (settling [] (trimmed interval state.now) (begun interval state.now) (contract_tree contract.now))) }
{
    let mut state = state.try_clone()?;
    let fixed = fix(interval, &mut state)?;
    let can_reduce = !is_quiet(contract, &state, fixed);
    let mut trail = Trail::new(alloc);
    let place = trail.settle(alloc, contract, &mut state, fixed)?;
    Ok(Settled {
        outcome: Outcome {
            warnings: trail.log.warnings,
            payments: trail.log.payments,
            state,
            place,
        },
        can_reduce,
        path: trail.path,
        warned: trail.warned,
    })
}
