//! Actions of cases.
ghost use Rattle.std.specs.Prelude.{IfOk};
ghost use Rattle.contract.specs.Tree.{action_tree};
ghost use Rattle.analysis_walk.specs.Knowledge.{actions_before, TakesSo};

use crate::conclusion::Conclusion;
use crate::knowledge::Knowledge;
use contract::{Action, Case, Memory};
use std::alloc::Global;

/// What is concluded of the action of a case, where it is taken, and no earlier case takes its input.
pub(crate) fn take_action<K: Knowledge>(
    alloc: Global,
    known: K::Known,
    earlier: &[Case],
    action: &Action,
) -> Result<Conclusion<K::Known>, Memory>
    ensures { IfOk result (TakesSo K.describes known (actions_before earlier.now) (action_tree action.now)) }
{
    match action {
        Action::Deposit(account, payer, token, amount) => K::deposit(
            alloc, known, earlier, account, payer, token, amount,
        ),
        Action::Choice(id, bounds) => K::choose(alloc, known, earlier, id, bounds),
        Action::Notify(observation) => K::notify(alloc, known, earlier, observation),
    }
}
