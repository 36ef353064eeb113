//! What parties are paid, as it is told.
ghost use Rattle.std.specs.Prelude.{◌≡◌, map, IfOk};
ghost use Rattle.contract.specs.Tree.{contract_tree};
ghost use Rattle.marlowe_analyse.specs.Told.{LeastsCanCome};
ghost use Rattle.marlowe_analyse.specs.RunsSupport.{HoldRanges, without_least};

use analysis_spec::PaidRange;
use contract::{Contract, Items, Memory, State};
use counter_runs::can_close;
use std::alloc::Global;

/// Ranges as they are told: where no run is known that closes the contract, each without its least.
pub(crate) fn told_ranges(
    alloc: Global,
    contract: &Contract,
    state: &State,
    ranges: Items<PaidRange>,
) -> Result<Items<PaidRange>, Memory>
    requires { HoldRanges state.now (contract_tree contract.now) ranges }
    ensures hold { IfOk result (HoldRanges state.now (contract_tree contract.now)) }
    ensures leasts { IfOk result (λ told. LeastsCanCome told state.now (contract_tree contract.now)) }
{
    if can_close(alloc, contract, state)? {
        Ok(ranges)
    } else {
        without_leasts(alloc, ranges)
    }
}

fn without_leasts(alloc: Global, ranges: Items<PaidRange>) -> Result<Items<PaidRange>, Memory>
    ensures { IfOk result (λ all. all ≡ map without_least ranges) }
{
    let mut all = Vec::new(alloc);
    for range in ranges.into_vec() {
        let PaidRange {
            party,
            token,
            least: _,
            most,
        } = range;
        all.push(PaidRange {
            party,
            token,
            least: None,
            most,
        })?;
    }
    Ok(Items::from_vec(all))
}
