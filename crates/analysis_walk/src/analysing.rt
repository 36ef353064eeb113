//! Analyses.
ghost use Rattle.std.specs.Prelude.{IfOk};
ghost use Rattle.contract.specs.Tree.{contract_tree};
ghost use Rattle.analysis_spec.specs.Analysed.{NamesWhatComes, NamesWhereItComes, StaysUnlessTold, NamesWhereItLeaves, AreNeverReached, PaysWithinRanges, PaysOthersNothing};

use crate::found::Found;
use crate::knowledge::Knowledge;
use crate::laws::{
    alarms_name_where_it_comes, alarms_name_where_it_leaves, avoided_is_never_reached,
    payments_lie_in_ranges,
};
use crate::walk::walk;
use analysis_spec::{Alarm, PaidRange, PathStep, leaving_has_a_place, warnings_have_places};
use contract::{Contract, Items, Memory, State};
use std::alloc::Global;

/// What was found of a contract: what may go wrong, with places, what parties are paid, and places to which no run comes.
#[derive(Debug, Drop)]
pub struct Analysis {
    pub alarms: Items<Alarm>,
    pub ranges: Items<PaidRange>,
    pub unreached: Items<Items<PathStep>>,
}

/// What a contract can warn of and pay in whatever runs from a state, by what is known of them. A kind of warning never
/// comes at a place where no alarm names it, and one that no alarm names never comes. In a transaction whose times JSON
/// can write no number first leaves 128 bits at a place without an alarm of `Leaves128`; with no such alarm none is
/// refused for that. What a party is paid of a token lies in its range, and without one it is nothing.
/// No transaction comes to a place that is unreached, nor does one that is refused. Refused only for memory.
pub fn analyse_by<K: Knowledge>(
    alloc: Global,
    contract: &Contract,
    state: &State,
) -> Result<Analysis, Memory>
    ensures places { IfOk result (λ a. NamesWhereItComes a.alarms state.now (contract_tree contract.now)) }
    ensures leaving { IfOk result (λ a. NamesWhereItLeaves a.alarms state.now (contract_tree contract.now)) }
    ensures alarms { IfOk result (λ a. NamesWhatComes a.alarms state.now (contract_tree contract.now)) }
    ensures numbers { IfOk result (λ a. StaysUnlessTold a.alarms state.now (contract_tree contract.now)) }
    ensures ranges { IfOk result (λ a. PaysWithinRanges a.ranges state.now (contract_tree contract.now)) }
    ensures unreached { IfOk result (λ a. AreNeverReached a.unreached state.now (contract_tree contract.now)) }
    ensures others { IfOk result (λ a. PaysOthersNothing a.ranges state.now (contract_tree contract.now)) }
{
    alarms_name_where_it_comes();
    alarms_name_where_it_leaves();
    payments_lie_in_ranges();
    avoided_is_never_reached();
    warnings_have_places();
    leaving_has_a_place();
    let _accounts = state.accounts();
    let known = K::start(alloc, state)?;
    let mut found = Found::new(alloc);
    let mut place = Vec::new(alloc);
    walk::<K>(alloc, known, contract, &mut place, &mut found)?;
    let Found {
        alarms,
        closings,
        unreached,
    } = found;
    let ranges = closings.ranges(alloc)?;
    Ok(Analysis {
        alarms,
        ranges,
        unreached,
    })
}
