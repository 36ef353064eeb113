//! Branches at an observation.
ghost use Rattle.std.specs.Prelude.{IfOk};
ghost use Rattle.contract.specs.Tree.{observation_tree};
ghost use Rattle.analysis_walk.specs.Conclusions.{ObservesSo};
ghost use Rattle.analysis_values.specs.Known.{IsDescribed};

use crate::alarms::put_unless;
use analysis_spec::AlarmKind;
use analysis_values::{Known, Observed, observe};
use analysis_walk::Branches;
use contract::{Items, Memory, Observation};
use std::alloc::Global;

/// An observation, as an If or a Notify looks at it: an alarm that a number leaves 128 bits, unless its numbers are shown
/// to fit.
pub fn branch(
    alloc: Global,
    known: &Known,
    observation: &Observation,
) -> Result<Branches<Known>, Memory>
    ensures { IfOk result (ObservesSo IsDescribed known.now (observation_tree observation.now)) }
{
    let observed = observe(known, observation)?;
    let Observed {
        fits,
        if_true,
        if_false,
    } = observed;
    let mut kinds = Items::new(alloc);
    put_unless(&mut kinds, fits, AlarmKind::Leaves128)?;
    Ok(Branches {
        kinds,
        if_true,
        if_false,
    })
}
