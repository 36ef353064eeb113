//! What lies between the last input and a place.
ghost use Rattle.std.specs.Prelude.{◌≡◌, map};
ghost use Rattle.contract.specs.Tree.{case_tree, case_trees};
ghost use Rattle.loss_walk.specs.Cuts.{quiet_from, quiet_before, after_reading, after_timeout, is_cut};

use crate::asking::asks_for;
use crate::question::Question;
use contract::Case;

/// The reductions since the last input, or since the start.
#[derive(Clone, Copy, Debug)]
pub(crate) struct Quiet {
    /// The latest of the timeouts that they are behind; also the last time before that of the When that took the input, or the
    /// minimum time of the start.
    pub(crate) latest: i128,
    /// Whether none of them reads a time.
    pub(crate) timeless: bool,
}

impl Quiet {
    /// None yet, from a time on.
    pub(crate) fn from(time: i64) -> Quiet
        ensures { result ≡ quiet_from time }
    {
        Quiet {
            latest: i128::from(time),
            timeless: true,
        }
    }

    /// None yet, behind an input that a When with this timeout took.
    pub(crate) fn behind_input(timeout: i64) -> Quiet
        ensures { result ≡ quiet_before timeout }
    {
        Quiet {
            latest: i128::from(timeout) - 1,
            timeless: true,
        }
    }

    /// One more, which reads a value or an observation.
    pub(crate) fn reading(self, timeless: bool) -> Quiet
        ensures { result ≡ after_reading self timeless }
    {
        Quiet {
            latest: self.latest,
            timeless: self.timeless && timeless,
        }
    }

    /// One more, a timeout.
    pub(crate) fn timed_out(self, timeout: i64) -> Quiet
        ensures { result ≡ after_timeout self timeout }
    {
        Quiet {
            latest: self.latest.max(i128::from(timeout)),
            timeless: self.timeless,
        }
    }

    /// Whether a When isn't left by its timeout, as who keeps up is asked for.
    pub(crate) fn cuts(self, question: &Question, cases: &[Case], timeout: i64) -> bool
        ensures { result ≡ is_cut question.now.keeper self (case_trees (map case_tree cases.now)) timeout }
    {
        match &question.keeper {
            None => false,
            Some(party) => (self.timeless && self.latest < i128::from(timeout))
                && asks_for(party, cases),
        }
    }
}
