//! What can be done next with a contract, after some transactions.
ghost use Rattle.std.specs.Prelude.{IfOk};
ghost use Rattle.contract.specs.Tree.{contract_tree};
ghost use Rattle.chain.specs.LedgerSpec.Semantics.Walk.{standing};
ghost use Rattle.uses.specs.WhatsNext.{IsNextAfter};

use chain::Plain;
use contract::{Contract, Interval, SemFault, State, Transaction};
use next_inputs::{NextInputs, next_inputs};
use std::alloc::Global;
use trace::{Refused, after};

/// Why nothing is told of what can be done next.
#[derive(Clone, Copy)]
pub enum NextFault {
    /// A transaction is refused, or memory for it.
    Refused(Refused),
    /// No transaction over the interval comes to its inputs, or memory was refused.
    Semantics(SemFault),
}

/// Computes transactions one after another, and tells which inputs can be made next over an interval: for each case of what
/// is left just those that it takes.
pub fn next_after<'c>(
    alloc: Global,
    contract: &'c Contract,
    state: &State,
    transactions: &[Transaction],
    interval: Interval,
) -> Result<NextInputs<&'c Contract>, NextFault>
    ensures { IfOk result (λ next. IsNextAfter (standing state.now (contract_tree contract.now)) transactions.now interval
        (contract_tree next.opening.outcome.place.now) next.offers) }
{
    match after(alloc, contract, state, transactions) {
        Ok(left) => match next_inputs(alloc, &Plain::new(), left.contract, &left.state, interval) {
            Ok(next) => Ok(next),
            Err(fault) => Err(NextFault::Semantics(fault)),
        },
        Err(refused) => Err(NextFault::Refused(refused)),
    }
}
