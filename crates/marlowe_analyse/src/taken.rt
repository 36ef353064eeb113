//! From when on all can be taken out, and what parties can lose.
ghost use Rattle.std.specs.Prelude.{◌≡◌, ◌≢◌, true, false, IfOk};
ghost use Rattle.contract.specs.Tree.{contract_tree};
ghost use Rattle.analysis_spec.specs.declared.kind.AlarmKind.TheVariants.{Leaves128};
ghost use Rattle.analysis_spec.specs.Analysed.{IsSilent, StaysUnlessTold, PaysWithinRanges, PaysOthersNothing};
ghost use Rattle.marlowe_analyse.specs.Told.{IsOut, AreLosses};

use analysis_spec::{Alarm, AlarmKind, PaidRange};
use closing_times::{contracts_close_from_their_last_timeout, last_timeout};
use contract::{Contract, Items, Memory, State};
use loss_walk::losses_of;
use losses::Loss;
use std::alloc::Global;

/// The time from which all can be taken out, whoever hands in the transaction: the last timeout, or none where it is at once; nothing
/// where a number may leave 128 bits, since then a run may never close. Takes no memory.
pub(crate) fn told_out(contract: &Contract, state: &State, alarms: &[Alarm]) -> Option<Option<i64>>
    requires { StaysUnlessTold alarms.now state.now (contract_tree contract.now) }
    ensures { IsOut state.now (contract_tree contract.now) alarms.now result }
{
    contracts_close_from_their_last_timeout();
    // touch: the state is that of the promise
    let _time = state.min_time();
    if leaves(alarms) {
        None
    } else {
        Some(last_timeout(contract))
    }
}

/// What parties can lose, where they are paid within these ranges; nothing where a number may leave 128 bits, since then what they
/// brought may never come out. `all_come` tells that each deposit is known to come.
pub(crate) fn told_losses(
    alloc: Global,
    contract: &Contract,
    state: &State,
    alarms: &[Alarm],
    ranges: &Items<PaidRange>,
    all_come: bool,
) -> Result<Option<Items<Loss>>, Memory>
    requires within { PaysWithinRanges ranges.now state.now (contract_tree contract.now) }
    requires unpaid { PaysOthersNothing ranges.now state.now (contract_tree contract.now) }
    ensures { IfOk result (AreLosses state.now (contract_tree contract.now) alarms.now) }
{
    if leaves(alarms) {
        return Ok(None);
    }
    let losses = losses_of(alloc, contract, state, ranges.as_slice(), all_come)?;
    Ok(Some(losses))
}

/// Whether there is an alarm that a number leaves 128 bits.
pub(crate) fn leaves(alarms: &[Alarm]) -> bool
    ensures none { result ≡ false → IsSilent alarms.now Leaves128 }
    ensures some { result ≡ true → IsSilent alarms.now Leaves128 → ⊥ }
{
    for alarm in alarms {
        if is_leaving(alarm.kind) {
            return true;
        }
    }
    false
}

fn is_leaving(kind: AlarmKind) -> bool
    ensures yes { result ≡ true → kind ≡ Leaves128 }
    ensures no { result ≡ false → kind ≢ Leaves128 }
{
    match kind {
        AlarmKind::Leaves128 => true,
        _ => false,
    }
}
