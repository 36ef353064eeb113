//! Reductions, and what is told of them.
ghost use Rattle.std.specs.Prelude.{◌≡◌, ◌≢◌, ◌++◌, [], OnOk, IfOk, MatchOption, MatchResult, option_map};
ghost use Rattle.contract.specs.Collections.Answers.{AsideBy};
ghost use Rattle.contract.specs.Tree.{contract_tree};
ghost use Rattle.semantics.specs.Computed.{settled};
ghost use Rattle.semantics.specs.Reduced.{step, reply, state_after, warnings_of, payments_of, turn_of};
ghost use Rattle.analysis_spec.specs.Marks.{step_of, settling};
ghost use Rattle.trace.specs.Warned.{at_place, warned_at};
ghost use Rattle.trace.specs.SteppingSupport.{Goes};

use crate::stepping::{Stepped, Stepping};
use crate::steps::push_step;
use crate::warned::Warned;
use analysis_spec::PathStep;
use contract::{Contract, Interval, Items, Memory, SemFault, State, TryClone, Warning};
use semantics::{Log, reduce};
use std::alloc::Global;

/// What reductions warned of and paid, where they led, and the place of each warning.
#[derive(Drop)]
pub(crate) struct Trail {
    pub(crate) log: Log,
    pub(crate) path: Items<PathStep>,
    pub(crate) warned: Items<Warned>,
}

impl Trail {
    /// Nothing yet.
    pub(crate) fn new(alloc: Global) -> Trail
        ensures { result ≡ record { log = record { warnings = []; payments = [] }; path = []; warned = [] } }
    {
        Trail {
            log: Log::new(alloc),
            path: Items::new(alloc),
            warned: Items::new(alloc),
        }
    }

    /// Reduces until all is quiet.
    pub(crate) fn settle<'c>(
        &mut self,
        alloc: Global,
        contract: &'c Contract,
        state: &mut State,
        interval: Interval,
    ) -> Result<&'c Contract, SemFault>
        ensures goes { Goes (λ c. contract_tree c.now) self.old.path self.new.path state.new
            (settled interval state.old (contract_tree contract.now)) result }
        ensures warnings { OnOk result (self.new.log.warnings
            ≡ self.old.log.warnings ++ (settled interval state.old (contract_tree contract.now)).warnings) }
        ensures payments { OnOk result (self.new.log.payments
            ≡ self.old.log.payments ++ (settled interval state.old (contract_tree contract.now)).payments) }
        ensures warned { OnOk result (self.new.warned
            ≡ self.old.warned ++ warned_at (settling self.old.path interval state.old (contract_tree contract.now))) }
    {
        let mut at = contract;
        while let Some(next) = self.reduce(alloc, at, state, interval)? {
            at = next;
        }
        Ok(at)
    }

    // One reduction: the part that is gone on with; none where all is quiet.
    fn reduce<'c>(
        &mut self,
        alloc: Global,
        contract: &'c Contract,
        state: &mut State,
        interval: Interval,
    ) -> Result<Option<&'c Contract>, SemFault>
        ensures reply { AsideBy SemFault.Memory (option_map (λ c. contract_tree c.now)) result
            (reply (step interval state.old (contract_tree contract.now))) }
        ensures state { OnOk result (state.new
            ≡ state_after state.old (step interval state.old (contract_tree contract.now))) }
        ensures warnings { OnOk result (self.new.log.warnings
            ≡ self.old.log.warnings ++ warnings_of (step interval state.old (contract_tree contract.now))) }
        ensures payments { OnOk result (self.new.log.payments
            ≡ self.old.log.payments ++ payments_of (step interval state.old (contract_tree contract.now))) }
        ensures warned { OnOk result (self.new.warned
            ≡ self.old.warned ++ at_place self.old.path (warnings_of (step interval state.old (contract_tree contract.now)))) }
        ensures path { IfOk result (λ next. MatchOption next (self.new.path ≡ self.old.path)
            (λ _. self.new.path ≡ self.old.path ++ step_of (turn_of (step interval state.old (contract_tree contract.now))))) }
    {
        let before = self.log.warnings.len();
        let here = Stepped {
            contract,
            step: None,
        };
        let next = reduce(&Stepping::new(), here, state, interval, &mut self.log)?;
        let new = &self.log.warnings.as_slice()[before..];
        put_warned(alloc, self.path.as_slice(), new, &mut self.warned)?;
        match next {
            Some(next) => {
                push_step(&mut self.path, next.step)?;
                Ok(Some(next.contract))
            }
            None => Ok(None),
        }
    }
}

// Puts warnings of a place behind others.
fn put_warned(
    alloc: Global,
    place: &[PathStep],
    warnings: &[Warning],
    warned: &mut Items<Warned>,
) -> Result<(), Memory>
    ensures { OnOk result (warned.new ≡ warned.old ++ at_place place.now warnings.now) }
{
    for warning in warnings {
        let next = warned_there(alloc, place, warning)?;
        warned.push(next)?;
    }
    Ok(())
}

fn warned_there(alloc: Global, place: &[PathStep], warning: &Warning) -> Result<Warned, Memory>
    ensures { IfOk result (λ it. it ≡ record { place = place.now; warning = warning.now }) }
{
    let place = Items::from_vec(Vec::from_slice(alloc, place)?);
    let warning = warning.try_clone()?;
    Ok(Warned { place, warning })
}
