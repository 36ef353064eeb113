//! A table's contracts by their parts.
ghost use Rattle.std.specs.Prelude.{◌≡◌, ◌<◌, ℕ, length, Some, refl, map, slice_get, option_map};
ghost use Rattle.table.specs.Flat.{Flat, Trees, trees, IsFlat, Has, AllStand, a_value, an_observation, a_case, a_cont, value_tree, observation_tree, cont_tree, case_of, case_entry, case_parts, follows};
ghost use Rattle.evaluation.specs.Path.{in_case};
ghost use Rattle.evaluation.specs.Path.{waits_for};
ghost use Rattle.evaluation.specs.Parts.{case_tree_of, StandsWait};
ghost use Rattle.table.specs.Along.{next_cont, cont_along};
ghost use Rattle.table.specs.AlongLaws.{along_more, along_tree, along_some, along_one, same_cont_tree, same_number, Numbered};

use crate::table::Table;
use contract::{Interval, SemFault, State};
use evaluation::{Form, Parts, Wait, Waiting};
use nodes::{CaseNode, Cont, ContNode};

impl Parts for Table {
    type Place = Cont;

    type Value = u32;

    type Observation = u32;

    ghost contains = { λ t k. Has t (a_cont k.0) };

    ghost has_value = { λ t v. Has t (a_value v) };

    ghost has_observation = { λ t o. Has t (an_observation o) };

    ghost tree = { λ t k. cont_tree t k.0 };

    ghost value_tree = { λ t v. value_tree t v };

    ghost observation_tree = { λ t o. observation_tree t o };

    ghost enters = { λ t k turn l. next_cont t k turn ≡ Some l };

    ghost leads = { λ t k turns l. cont_along t k turns ≡ Some l };

    ghost stays = { λ t k. refl };

    ghost goes = { λ t k turn l turns m h j. along_more t k turn l turns m h j };

    ghost same = { λ t k l e w. same_cont_tree t k l e w };

    ghost led = { λ t k turns l w h. along_tree t k turns l w h };

    ghost some = { λ t k turns c w h. along_some t k turns c w h };

    ghost one = { λ t k turns l m h j. same_number l m (along_one t k turns l m h j) };

    fn form(&self, place: Cont) -> Form<'_, Cont, u32, u32> {
        match &self.cont_node(place).node {
            ContNode::Close => Form::Close,
            ContNode::Pay(from, to, token, amount, then) => {
                Form::Pay(from, to, token, *amount, *then)
            }
            ContNode::If(observation, then, otherwise) => {
                Form::If(*observation, *then, *otherwise)
            }
            ContNode::When(_, timeout, then) => Form::When(*timeout, *then),
            ContNode::Let(name, bound, then) => Form::Let(name, *bound, *then),
            ContNode::Assert(observation, then) => Form::Assert(*observation, *then),
        }
    }

    fn count_cases(&self, place: Cont) -> usize {
        cases(self, place).len()
    }

    fn case(&self, place: Cont, index: usize) -> Waiting<'_, Cont, u32, u32> {
        let number = case_number(self, place, index);
        waiting(&self.case_node(number).node)
    }

    fn value(&self, value: u32, state: &State, interval: Interval) -> Result<i128, SemFault> {
        self.evaluated(value, state, interval)
    }

    fn holds(&self, observation: u32, state: &State, interval: Interval) -> Result<bool, SemFault> {
        self.judged(observation, state, interval)
    }
}

// The cases that a continuation names, none but of a When.
fn cases(table: &Table, place: Cont) -> &[u32]
    requires { Has table.now (a_cont place.0) }
    ensures named { map (trees table.now).case result.now ≡ waits_for (cont_tree table.now place.0) }
    ensures stand { AllStand table.now (map a_case result.now) }
    ensures enter { (m : ℕ) → next_cont table.now place (in_case m)
        ≡ option_map (λ j. follows (case_entry table.now j).node) (slice_get result.now m) }
{
    match &table.cont_node(place).node {
        ContNode::When(cases, _, _) => cases.as_slice(),
        _ => &[],
    }
}

// The number of a case that a continuation names.
fn case_number(table: &Table, place: Cont, index: usize) -> u32
    requires stands { Has table.now (a_cont place.0) }
    requires within { index < length (waits_for (cont_tree table.now place.0)) }
    ensures { Numbered table.now place index result }
{
    cases(table, place)[index]
}

// A case by its parts.
fn waiting(node: &CaseNode) -> Waiting<'_, Cont, u32, u32>
    ensures tree { (t : Trees) → case_tree_of (λ k. t.cont k.0) t.value t.observation result ≡ case_of t node.now }
    ensures then { result.then ≡ follows node.now }
    ensures stand { (f : Flat) → IsFlat f → AllStand f (case_parts node.now)
        → StandsWait (λ v. Has f (a_value v)) (λ o. Has f (an_observation o)) result.action × Has f (a_cont result.then.0) }
{
    match node {
        CaseNode::Deposit(account, party, token, amount, then) => Waiting {
            action: Wait::Deposit(account, party, token, *amount),
            then: *then,
        },
        CaseNode::Choice(id, bounds, then) => Waiting {
            action: Wait::Choice(id, bounds.as_slice()),
            then: *then,
        },
        CaseNode::Notify(observation, then) => Waiting {
            action: Wait::Notify(*observation),
            then: *then,
        },
    }
}
