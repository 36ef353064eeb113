//! Runs to the places at which a contract is closed.
use crate::walk::{Try, try_closing};
use analysis_spec::PathStep;
use contract::{Contract, Items, Memory, State, Transaction};
use run_ways::{Turns, Way, next_turns, spend};
use std::alloc::Global;

/// Runs to a Close, one after another: with the first candidates where there is a choice, and then with others at no more than
/// so many points. Nothing is promised of them: whoever tells one plays it again.
pub struct ClosingRuns {
    way: Way,
    decided: Vec<usize>,
    others: usize,
    prefers_second: bool,
    is_over: bool,
}

// Dropped once.
impl Drop for ClosingRuns {
    fn drop(self) {
        let ClosingRuns {
            way: _,
            decided: _,
            others: _,
            prefers_second: _,
            is_over: _,
        } = self;
    }
}

impl ClosingRuns {
    /// Runs from a state to the Close at a place. The first candidate for the number of a choice is the least with which a run can
    /// go on, or the greatest, where the second is preferred. To read the way there takes work.
    pub fn new(
        alloc: Global,
        contract: &Contract,
        state: &State,
        place: &[PathStep],
        others: usize,
        prefers_second: bool,
        work: &mut u64,
    ) -> Result<ClosingRuns, Memory> {
        let mut way = Way::new(alloc, contract, state, place, work)?;
        if others > 0 {
            way.add_numbers(alloc, work)?;
        }
        Ok(ClosingRuns {
            way,
            decided: Vec::new(alloc),
            others,
            prefers_second,
            is_over: false,
        })
    }

    /// The next run, if there is one and as much work is left as it takes to find it and to play it again.
    pub fn next(
        &mut self,
        alloc: Global,
        contract: &Contract,
        state: &State,
        place: &[PathStep],
        work: &mut u64,
    ) -> Result<Option<Items<Transaction>>, Memory> {
        let most = *work;
        for _ in 0..most {
            if self.is_over || *work == 0 {
                return Ok(None);
            }
            let before = *work;
            let Try { run, points } = self.tried(alloc, contract, state, place, work)?;
            let more = next_turns(&mut self.decided, points.as_slice(), self.others)?;
            self.is_over = !more;
            if let Some(run) = run {
                let found = before.saturating_sub(*work);
                let is_left = spend(work, self.way.replay(run.len(), found));
                return Ok(if is_left { Some(run) } else { None });
            }
        }
        Ok(None)
    }

    // What comes of the next try.
    fn tried(
        &self,
        alloc: Global,
        contract: &Contract,
        state: &State,
        place: &[PathStep],
        work: &mut u64,
    ) -> Result<Try, Memory> {
        let turns = Turns::new(alloc, self.decided.as_slice(), self.prefers_second);
        try_closing(alloc, contract, place, &self.way, state, turns, work)
    }
}
