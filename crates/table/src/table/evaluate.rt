//! Evaluation by numbers.
ghost use Rattle.std.specs.Prelude.{◌≡◌};
ghost use Rattle.evaluation.specs.Evaluation.{number_within, truth_within};
ghost use Rattle.evaluation.specs.Checked.{both, eval128, holds128};
ghost use Rattle.table.specs.Leaves.{number_fitting, truth_fitting};
ghost use Rattle.table.specs.Flat.{value_tree, observation_tree, Stands, a_value, an_observation};

use crate::leaves::Leaves128;
use crate::table::Table;
use contract::{Interval, SemFault, State};
use evaluation::{difference, known, negation, product, quotient, sum};
use nodes::{ObservationNode, ValueNode};

impl Table {
    /// The number of a value (Marlowe specification version 3, "Evaluate value"), or `Leaves128` where a number that
    /// is visited on the way leaves 128 bits; takes no memory. It goes down the unfolded tree: what is named twice
    /// is evaluated twice.
    pub fn value(&self, number: u32, state: &State, interval: Interval) -> Result<i128, Leaves128>
        requires { Stands self.now (a_value number) }
        ensures { result ≡ number_fitting interval state.now (value_tree self.now number) }
    {
        match self.evaluated(number, state, interval) {
            Ok(number) => Ok(number),
            Err(_) => Err(Leaves128),
        }
    }

    /// Whether an observation is true (Marlowe specification version 3, "Evaluate observation"), or `Leaves128` where
    /// a number that is visited on the way leaves 128 bits; takes no memory. It goes down the unfolded tree.
    pub fn holds(&self, number: u32, state: &State, interval: Interval) -> Result<bool, Leaves128>
        requires { Stands self.now (an_observation number) }
        ensures { result ≡ truth_fitting interval state.now (observation_tree self.now number) }
    {
        match self.judged(number, state, interval) {
            Ok(truth) => Ok(truth),
            Err(_) => Err(Leaves128),
        }
    }

    // The number of a value, with the fault of a transaction.
    pub(crate) fn evaluated(
        &self,
        number: u32,
        state: &State,
        interval: Interval,
    ) -> Result<i128, SemFault>
        requires { Stands self.now (a_value number) }
        ensures { result ≡ number_within interval state.now (value_tree self.now number) }
    {
        self.checked_value(number, state, interval)
    }

    // The truth of an observation, with the fault of a transaction.
    pub(crate) fn judged(
        &self,
        number: u32,
        state: &State,
        interval: Interval,
    ) -> Result<bool, SemFault>
        requires { Stands self.now (an_observation number) }
        ensures { result ≡ truth_within interval state.now (observation_tree self.now number) }
    {
        self.checked_holds(number, state, interval)
    }

    // The number of a value, or the fault at the first number that leaves 128 bits.
    #[cycle(evaluate)]
    fn checked_value(
        &self,
        number: u32,
        state: &State,
        interval: Interval,
    ) -> Result<i128, SemFault>
        requires { Stands self.now (a_value number) }
        ensures { result ≡ eval128 interval state.now (value_tree self.now number) }
    {
        match &self.value_node(number).node {
            ValueNode::AvailableMoney(owner, token) => known(state.money(owner, token)),
            ValueNode::Constant(constant) => known(*constant),
            ValueNode::NegValue(a) => {
                let x = self.checked_value(*a, state, interval)?;
                negation(x)
            }
            ValueNode::AddValue(a, b) => {
                let (x, y) = self.operands(*a, *b, state, interval)?;
                sum(x, y)
            }
            ValueNode::SubValue(a, b) => {
                let (x, y) = self.operands(*a, *b, state, interval)?;
                difference(x, y)
            }
            ValueNode::MulValue(a, b) => {
                let (x, y) = self.operands(*a, *b, state, interval)?;
                product(x, y)
            }
            ValueNode::DivValue(a, b) => {
                let (x, y) = self.operands(*a, *b, state, interval)?;
                quotient(x, y)
            }
            ValueNode::ChoiceValue(id) => known(state.choice(id).unwrap_or(0)),
            ValueNode::TimeIntervalStart => known(i128::from(interval.from)),
            ValueNode::TimeIntervalEnd => known(i128::from(interval.to)),
            ValueNode::UseValue(name) => known(state.bound(name).unwrap_or(0)),
            ValueNode::Cond(observation, a, b) => {
                if self.checked_holds(*observation, state, interval)? {
                    self.checked_value(*a, state, interval)
                } else {
                    self.checked_value(*b, state, interval)
                }
            }
        }
    }

    // The numbers of two values, or the fault at the first number that leaves 128 bits.
    #[cycle(evaluate)]
    fn operands(
        &self,
        a: u32,
        b: u32,
        state: &State,
        interval: Interval,
    ) -> Result<(i128, i128), SemFault>
        requires first { Stands self.now (a_value a) }
        requires second { Stands self.now (a_value b) }
        ensures { result
            ≡ both (eval128 interval state.now (value_tree self.now a)) (eval128 interval state.now (value_tree self.now b)) }
    {
        let x = self.checked_value(a, state, interval)?;
        let y = self.checked_value(b, state, interval)?;
        Ok((x, y))
    }

    // The truth of an observation, or the fault at the first number that leaves 128 bits.
    #[cycle(evaluate)]
    fn checked_holds(
        &self,
        number: u32,
        state: &State,
        interval: Interval,
    ) -> Result<bool, SemFault>
        requires { Stands self.now (an_observation number) }
        ensures { result ≡ holds128 interval state.now (observation_tree self.now number) }
    {
        match &self.observation_node(number).node {
            ObservationNode::AndObs(a, b) => {
                if self.checked_holds(*a, state, interval)? {
                    self.checked_holds(*b, state, interval)
                } else {
                    Ok(false)
                }
            }
            ObservationNode::OrObs(a, b) => {
                if self.checked_holds(*a, state, interval)? {
                    Ok(true)
                } else {
                    self.checked_holds(*b, state, interval)
                }
            }
            ObservationNode::NotObs(a) => {
                let truth = self.checked_holds(*a, state, interval)?;
                Ok(!truth)
            }
            ObservationNode::ChoseSomething(id) => Ok(state.choice(id).is_some()),
            ObservationNode::ValueGE(a, b) => {
                let (x, y) = self.operands(*a, *b, state, interval)?;
                Ok(x >= y)
            }
            ObservationNode::ValueGT(a, b) => {
                let (x, y) = self.operands(*a, *b, state, interval)?;
                Ok(x > y)
            }
            ObservationNode::ValueLT(a, b) => {
                let (x, y) = self.operands(*a, *b, state, interval)?;
                Ok(x < y)
            }
            ObservationNode::ValueLE(a, b) => {
                let (x, y) = self.operands(*a, *b, state, interval)?;
                Ok(x <= y)
            }
            ObservationNode::ValueEQ(a, b) => {
                let (x, y) = self.operands(*a, *b, state, interval)?;
                Ok(x == y)
            }
            ObservationNode::TrueObs => Ok(true),
            ObservationNode::FalseObs => Ok(false),
        }
    }
}
