//! Where transactions lead.
ghost use Rattle.std.specs.Prelude.{◌≡◌, ◌≢◌, [], IfOk, Ok, Err, MatchResult};
ghost use Rattle.contract.specs.Tree.{contract_tree};
ghost use Rattle.semantics.specs.Walk.{standing, answer_of};
ghost use Rattle.analysis_spec.specs.Runs.{walk_from};
ghost use Rattle.analysis_spec.specs.Marks.{led, leads_after};
ghost use Rattle.trace.specs.Traces.{left_by};

use crate::refused::Refused;
use crate::steps::compute;
use analysis_spec::PathStep;
use contract::{Contract, Items, SemFault, State, Transaction, TryClone};
use semantics::Log;
use std::alloc::Global;

/// Where transactions leave a contract.
#[derive(Drop)]
pub struct Left<'c> {
    /// The state that they leave.
    pub state: State,
    /// What they leave of the contract.
    pub contract: &'c Contract,
    /// The steps that lead there from the whole contract.
    pub path: Items<PathStep>,
}

/// Computes transactions one after another, each from where the one before it left contract and state (Marlowe
/// specification version 3, "Compute transaction"), and gives where the last leaves them, with the path in the contract
/// that leads there; or the first that is refused, by its index, with its fault. For want of memory it is the one at
/// which memory was refused.
pub fn after<'c>(
    alloc: Global,
    contract: &'c Contract,
    state: &State,
    transactions: &[Transaction],
) -> Result<Left<'c>, Refused>
    ensures answer { MatchResult result
        (λ left. left_by 0 (standing state.now (contract_tree contract.now)) transactions.now
        ≡ Ok (standing left.state (contract_tree left.contract.now)))
        (λ refused. refused.fault ≢ SemFault.Memory
        → left_by 0 (standing state.now (contract_tree contract.now)) transactions.now ≡ Err refused) }
    ensures path { IfOk result (λ left. left.path
        ≡ leads_after [] (standing state.now (contract_tree contract.now)) transactions.now) }
{
    let mut left = beginning(alloc, contract, state)?;
    for index in 0..transactions.len() {
        left = step(alloc, left, index, &transactions[index])?;
    }
    Ok(left)
}

// Before the first.
fn beginning<'c>(alloc: Global, contract: &'c Contract, state: &State) -> Result<Left<'c>, Refused>
    ensures { MatchResult result
        (λ left. left ≡ record { state = state.now; contract = contract.entry; path = [] })
        (λ refused. refused.fault ≡ SemFault.Memory) }
{
    match state.try_clone() {
        Ok(state) => Ok(Left {
            state,
            contract,
            path: Items::new(alloc),
        }),
        Err(_) => Err(Refused {
            index: 0,
            fault: SemFault::Memory,
        }),
    }
}

// One transaction.
fn step<'c>(
    alloc: Global,
    left: Left<'c>,
    index: usize,
    transaction: &Transaction,
) -> Result<Left<'c>, Refused>
    ensures answer { MatchResult result
        (λ next. answer_of (walk_from (standing left.entry.state (contract_tree left.entry.contract.now)) transaction.now)
        ≡ Ok (standing next.state (contract_tree next.contract.now)))
        (λ refused. (refused.index ≡ index) × (refused.fault ≢ SemFault.Memory
        → answer_of (walk_from (standing left.entry.state (contract_tree left.entry.contract.now)) transaction.now) ≡ Err refused.fault)) }
    ensures path { IfOk result (λ next. next.path
        ≡ led left.entry.path (walk_from (standing left.entry.state (contract_tree left.entry.contract.now)) transaction.now).turns) }
{
    let Left {
        mut state,
        contract,
        mut path,
    } = left;
    let inputs = transaction.inputs.as_slice();
    let interval = transaction.interval;
    let mut log = Log::new(alloc);
    match compute(inputs, contract, &mut state, interval, &mut log, &mut path) {
        Ok(contract) => Ok(Left {
            state,
            contract,
            path,
        }),
        Err(fault) => Err(Refused { index, fault }),
    }
}
