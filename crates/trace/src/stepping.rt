//! Contracts as trees, with the step that led to each place.
ghost use Rattle.std.specs.Prelude.{◌≡◌, Some, refl};
ghost use Rattle.contract.specs.Tree.{value_tree, observation_tree, contract_tree};
ghost use Rattle.contract.specs.TreeInverse.{contract_of};
ghost use Rattle.semantics.specs.Evaluation.Path.{part, along};
ghost use Rattle.semantics.specs.PlainLaws.{same_tree, one_place, one_turn_more, has_contract};
ghost use Rattle.trace.specs.SteppingSupport.{last_step};

use analysis_spec::PathStep;
use contract::{Contract, Interval, Observation, SemFault, State, Value};
use semantics::Plain;
use semantics::evaluation::{Form, Parts, Waiting};

/// A contract, and the step by which it was entered last, if it was.
#[derive(Clone, Copy)]
#[derive_where(PartialEq, Eq)]
pub struct Stepped<'c> {
    /// The contract.
    pub contract: &'c Contract,
    /// The step that led to it.
    #[derive_where(skip)]
    pub step: Option<PathStep>,
}

// What a step leads to.
fn behind<'c>(step: PathStep, contract: &'c Contract) -> Stepped<'c>
    ensures { result ≡ record { contract = contract.entry; step = Some step } }
{
    Stepped {
        contract,
        step: Some(step),
    }
}

/// Contracts as trees, as `Plain` has them, but that each place has the step that led to it.
#[derive(Clone, Copy)]
pub struct Stepping<'c> {
    plain: Plain<'c>,
}

impl<'c> Stepping<'c> {
    /// Takes no memory.
    pub fn new() -> Stepping<'c> {
        Stepping {
            plain: Plain::new(),
        }
    }
}

impl<'c> Parts for Stepping<'c> {
    type Place = Stepped<'c>;

    type Value = &'c Value;

    type Observation = &'c Observation;

    ghost contains = { λ _ _. Unit {0} };

    ghost has_value = { λ _ _. Unit {0} };

    ghost has_observation = { λ _ _. Unit {0} };

    ghost tree = { λ _ p. contract_tree p.contract.now };

    ghost value_tree = { λ _ v. value_tree v.now };

    ghost observation_tree = { λ _ o. observation_tree o.now };

    ghost enters = { λ _ p turn q. (part (contract_tree p.contract.now) turn ≡ Some (contract_tree q.contract.now))
        × (q.step ≡ last_step p.step turn) };

    ghost leads = { λ _ p turns q. along (contract_tree p.contract.now) turns ≡ Some (contract_tree q.contract.now) };

    ghost stays = { λ _ p. refl };

    ghost goes = { λ _ p t q ts r h k.
        one_turn_more (contract_tree p.contract.now) t (contract_tree q.contract.now) ts (contract_tree r.contract.now) h.0 k };

    ghost same = { λ _ p q e _. (tt, same_tree p.contract.now q.contract.now e) };

    ghost led = { λ _ p turns q _ h. (tt, h) };

    ghost some = { λ _ p turns c _ h. (
      record p { contract = record p.contract { now = contract_of c } },
      has_contract (along (contract_tree p.contract.now) turns) c h,
    ) };

    ghost one = { λ _ p turns q r h k. one_place (along (contract_tree p.contract.now) turns) q.contract.now r.contract.now h k };

    fn form(&self, place: Stepped<'c>) -> Form<'_, Stepped<'c>, &'c Value, &'c Observation> {
        match self.plain.form(place.contract) {
            Form::Close => Form::Close,
            Form::Pay(from, to, token, amount, then) => {
                Form::Pay(from, to, token, amount, behind(PathStep::Then, then))
            }
            Form::If(observation, then, otherwise) => Form::If(
                observation,
                behind(PathStep::Then, then),
                behind(PathStep::Else, otherwise),
            ),
            Form::When(timeout, then) => {
                Form::When(timeout, behind(PathStep::TimeoutContinuation, then))
            }
            Form::Let(name, bound, then) => Form::Let(name, bound, behind(PathStep::Then, then)),
            Form::Assert(observation, then) => {
                Form::Assert(observation, behind(PathStep::Then, then))
            }
        }
    }

    fn count_cases(&self, place: Stepped<'c>) -> usize {
        self.plain.count_cases(place.contract)
    }

    fn case(
        &self,
        place: Stepped<'c>,
        index: usize,
    ) -> Waiting<'_, Stepped<'c>, &'c Value, &'c Observation> {
        let case = self.plain.case(place.contract, index);
        Waiting {
            action: case.action,
            then: behind(PathStep::Case(index), case.then),
        }
    }

    fn value(&self, value: &'c Value, state: &State, interval: Interval) -> Result<i128, SemFault> {
        self.plain.value(value, state, interval)
    }

    fn holds(
        &self,
        observation: &'c Observation,
        state: &State,
        interval: Interval,
    ) -> Result<bool, SemFault> {
        self.plain.holds(observation, state, interval)
    }
}
