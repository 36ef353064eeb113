//! Analyses.
ghost use Rattle.std.specs.Prelude.{IfOk};
ghost use Rattle.contract.specs.Tree.{contract_tree};
ghost use Rattle.analysis_spec.specs.Analysed.{NamesWhatComes, NamesWhereItComes, StaysUnlessTold, NamesWhereItLeaves, AreNeverReached, PaysWithinRanges, PaysOthersNothing};

use crate::knowing::Expressions;
use analysis_walk::{Analysis, analyse_by};
use contract::{Contract, Memory, State};
use std::alloc::Global;

/// What a contract can warn of, with places, what it can pay, and what of it no run reaches, in whatever runs from a state. A kind of warning never
/// comes at a place where no alarm names it, not even in a transaction that is refused; so one that no alarm names never
/// comes. In a transaction whose times JSON can write no number first leaves 128 bits at a place without an alarm of
/// `Leaves128`; with no such alarm none is refused for that. What a party is paid of a token, in the
/// token's smallest unit, lies in its range: in no run above the most, and in no run that closed the contract below the
/// least; without a range it is nothing. At a place that is unreached no transaction starts, goes through it or stops, not
/// even one that is refused, and it is one of the contract. Refused only for memory.
pub fn analyse(alloc: Global, contract: &Contract, state: &State) -> Result<Analysis, Memory>
    ensures places { IfOk result (λ a. NamesWhereItComes a.alarms state.now (contract_tree contract.now)) }
    ensures leaving { IfOk result (λ a. NamesWhereItLeaves a.alarms state.now (contract_tree contract.now)) }
    ensures alarms { IfOk result (λ a. NamesWhatComes a.alarms state.now (contract_tree contract.now)) }
    ensures numbers { IfOk result (λ a. StaysUnlessTold a.alarms state.now (contract_tree contract.now)) }
    ensures ranges { IfOk result (λ a. PaysWithinRanges a.ranges state.now (contract_tree contract.now)) }
    ensures unreached { IfOk result (λ a. AreNeverReached a.unreached state.now (contract_tree contract.now)) }
    ensures others { IfOk result (λ a. PaysOthersNothing a.ranges state.now (contract_tree contract.now)) }
{
    analyse_by::<Expressions>(alloc, contract, state)
}
