//! Notifications.
ghost use Rattle.std.specs.Prelude.{◌≡◌, true, IfOk};
ghost use Rattle.contract.specs.Tree.{observation_tree, false_obs};
ghost use Rattle.analysis_walk.specs.Conclusions.{NotifiesSo};
ghost use Rattle.analysis_walk.specs.Knowledge.{actions_before};
ghost use Rattle.analysis_values.specs.Known.{IsDescribed};
ghost use Rattle.analysis_steps.specs.Earlier.{IsNotifyTaken};

use crate::branches::branch;
use crate::earlier::is_notify_taken;
use crate::reductions::is_impossible;
use analysis_values::Known;
use analysis_walk::{Branches, Conclusion};
use contract::{Case, Items, Memory, Observation};
use std::alloc::Global;

// Whether an earlier case is shown to take each notification; where none can come that isn't asked.
fn is_taken(
    known: &Known,
    earlier: &[Case],
    observation: &Observation,
    if_true: &Option<Known>,
) -> Result<bool, Memory>
    ensures { IfOk result (λ yes. yes ≡ true → IsNotifyTaken known.now (actions_before earlier.now) (observation_tree observation.now)) }
{
    if is_impossible(if_true) {
        return Ok(false);
    }
    is_notify_taken(known, earlier, observation)
}

// Whether an observation says that it is false.
fn says_false(observation: &Observation) -> bool
    ensures { result ≡ true → observation_tree observation.now ≡ false_obs }
{
    matches!(observation, Observation::FalseObs)
}

/// A notification while an observation is true, which no earlier case takes (Marlowe specification version 3, "Apply
/// cases"): none where an earlier case is shown to take each. An alarm that a number leaves 128 bits, unless the
/// observation's numbers are shown to fit.
pub fn notify(
    alloc: Global,
    known: Known,
    earlier: &[Case],
    observation: &Observation,
) -> Result<Conclusion<Known>, Memory>
    ensures { IfOk result (NotifiesSo IsDescribed known (actions_before earlier.now) (observation_tree observation.now)) }
{
    if says_false(observation) {
        return Ok(Conclusion {
            kinds: Items::new(alloc),
            known: None,
        });
    }
    let branches = branch(alloc, &known, observation)?;
    let taken = is_taken(&known, earlier, observation, &branches.if_true)?;
    if taken {
        return Ok(Conclusion {
            kinds: branches.kinds,
            known: None,
        });
    }
    Ok(Conclusion {
        kinds: branches.kinds,
        known: branches.if_true,
    })
}
