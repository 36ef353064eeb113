//! What a walk has found so far.
ghost use Rattle.std.specs.Prelude.{◌≡◌, ◌++◌, [], ◌∷◌, map, OnOk};
ghost use Rattle.contract.specs.Tree.{case_tree, case_trees};
ghost use Rattle.analysis_walk.specs.LeftOut.{LeavesOut, IsBehindCase};
ghost use Rattle.analysis_walk.specs.Walked.{alarms_at};
ghost use Rattle.analysis_walk.specs.Found.{Finds, TellsOf, PaysWithin, Nothing};

use crate::closings::Closings;
use crate::span::Span;
use analysis_spec::{Alarm, AlarmKind, PathStep};
use contract::{Account, Case, Items, Memory};
use std::alloc::Global;

/// Alarms, what parties are paid wherever the contract is closed, and places to which no run comes, as far as a walk has
/// come.
#[derive(Drop)]
pub(crate) struct Found {
    pub(crate) alarms: Items<Alarm>,
    pub(crate) closings: Closings,
    pub(crate) unreached: Items<Items<PathStep>>,
}

impl Found {
    /// Nothing yet.
    pub(crate) fn new(alloc: Global) -> Found
        ensures alarms { result.alarms ≡ [] }
        ensures closings { result.closings.count ≡ 0 }
        ensures unreached { result.unreached ≡ [] }
    {
        Found {
            alarms: Items::new(alloc),
            closings: Closings::new(alloc),
            unreached: Items::new(alloc),
        }
    }

    /// Alarms of these kinds at a place.
    pub(crate) fn raise(
        &mut self,
        alloc: Global,
        place: &[PathStep],
        kinds: &Items<AlarmKind>,
    ) -> Result<(), Memory>
        ensures found { OnOk result (Finds (TellsOf place.now kinds.now) self.old self.new) }
        ensures unreached { self.new.unreached ≡ self.old.unreached }
    {
        push_alarms(&mut self.alarms, alloc, place, kinds.as_slice())?;
        Ok(())
    }

    /// A close at which parties are paid so.
    pub(crate) fn close(&mut self, spans: &[(Account, Span)]) -> Result<(), Memory>
        ensures found { OnOk result (Finds (PaysWithin spans.now) self.old self.new) }
        ensures unreached { self.new.unreached ≡ self.old.unreached }
    {
        self.closings.add(spans)?;
        Ok(())
    }

    /// No run goes one step on from a place.
    pub(crate) fn leave_out(
        &mut self,
        alloc: Global,
        place: &[PathStep],
        step: PathStep,
    ) -> Result<(), Memory>
        ensures found { OnOk result (Finds Nothing self.old self.new) }
        ensures unreached { OnOk result (self.new.unreached ≡ self.old.unreached ++ (place.now ++ step ∷ []) ∷ []) }
    {
        let mut next = Vec::from_slice(alloc, place)?;
        next.push(step)?;
        self.unreached.push(Items::from_vec(next))?;
        Ok(())
    }

    /// No run goes on from a place behind any of these cases.
    pub(crate) fn leave_out_cases(
        &mut self,
        alloc: Global,
        place: &[PathStep],
        cases: &[Case],
    ) -> Result<(), Memory>
        ensures found { OnOk result (Finds Nothing self.old self.new) }
        ensures unreached { OnOk result (LeavesOut (IsBehindCase place.now (case_trees (map case_tree cases.now)) (λ n path. Unit {0})) self.old self.new) }
    {
        for index in 0..cases.len() {
            self.leave_out(alloc, place, PathStep::Case(index))?;
        }
        Ok(())
    }
}

fn push_alarms(
    alarms: &mut Items<Alarm>,
    alloc: Global,
    place: &[PathStep],
    kinds: &[AlarmKind],
) -> Result<(), Memory>
    ensures { OnOk result (alarms.new ≡ alarms.old ++ alarms_at place.now kinds.now) }
{
    for kind in kinds {
        let copy = Items::from_vec(Vec::from_slice(alloc, place)?);
        alarms.push(Alarm {
            kind: *kind,
            place: copy,
        })?;
    }
    Ok(())
}
