//! How high a node stands: 0 for a leaf, else one more than the highest that it names.
ghost use Rattle.std.specs.Prelude.{◌≡◌, ◌≤◌, map};
ghost use Rattle.table.specs.Flat.{AllStand, Stands, a_value, an_observation, a_case, a_cont, value_parts, observation_parts, case_parts, cont_parts, height_of, height_above};
ghost use Rattle.table.specs.Heights.{greatest};

use crate::table::Table;
use nodes::{CaseNode, Cont, ContNode, ObservationNode, ValueNode};

impl Table {
    pub(crate) fn value_height(&self, node: &ValueNode) -> u16
        requires { AllStand self.now (value_parts node.now) }
        ensures { result ≡ height_above self.now (value_parts node.now) }
    {
        match node {
            ValueNode::NegValue(a) => 1 + self.of_value(*a),
            ValueNode::AddValue(a, b)
            | ValueNode::SubValue(a, b)
            | ValueNode::MulValue(a, b)
            | ValueNode::DivValue(a, b) => 1 + self.of_value(*a).max(self.of_value(*b)),
            ValueNode::Cond(o, a, b) => {
                1 + self
                    .of_observation(*o)
                    .max(self.of_value(*a).max(self.of_value(*b)))
            }
            _ => 0,
        }
    }

    pub(crate) fn observation_height(&self, node: &ObservationNode) -> u16
        requires { AllStand self.now (observation_parts node.now) }
        ensures { result ≡ height_above self.now (observation_parts node.now) }
    {
        match node {
            ObservationNode::AndObs(o, q) | ObservationNode::OrObs(o, q) => {
                1 + self.of_observation(*o).max(self.of_observation(*q))
            }
            ObservationNode::NotObs(o) => 1 + self.of_observation(*o),
            ObservationNode::ValueGE(a, b)
            | ObservationNode::ValueGT(a, b)
            | ObservationNode::ValueLT(a, b)
            | ObservationNode::ValueLE(a, b)
            | ObservationNode::ValueEQ(a, b) => 1 + self.of_value(*a).max(self.of_value(*b)),
            _ => 0,
        }
    }

    pub(crate) fn case_height(&self, node: &CaseNode) -> u16
        requires { AllStand self.now (case_parts node.now) }
        ensures { result ≡ height_above self.now (case_parts node.now) }
    {
        match node {
            CaseNode::Deposit(_, _, _, amount, then) => {
                1 + self.of_value(*amount).max(self.of_cont(*then))
            }
            CaseNode::Choice(_, _, then) => 1 + self.of_cont(*then),
            CaseNode::Notify(observation, then) => {
                1 + self.of_observation(*observation).max(self.of_cont(*then))
            }
        }
    }

    pub(crate) fn cont_height(&self, node: &ContNode) -> u16
        requires { AllStand self.now (cont_parts node.now) }
        ensures { result ≡ height_above self.now (cont_parts node.now) }
    {
        match node {
            ContNode::Close => 0,
            ContNode::Pay(_, _, _, amount, then) => {
                1 + self.of_value(*amount).max(self.of_cont(*then))
            }
            ContNode::If(observation, then, otherwise) => {
                1 + self
                    .of_observation(*observation)
                    .max(self.of_cont(*then).max(self.of_cont(*otherwise)))
            }
            ContNode::When(cases, _, then) => {
                1 + self.of_cont(*then).max(self.of_cases(cases.as_slice()))
            }
            ContNode::Let(_, bound, then) => 1 + self.of_value(*bound).max(self.of_cont(*then)),
            ContNode::Assert(observation, then) => {
                1 + self.of_observation(*observation).max(self.of_cont(*then))
            }
        }
    }

    fn of_value(&self, number: u32) -> u16
        requires { Stands self.now (a_value number) }
        ensures exact { result ≡ height_of self.now (a_value number) }
        ensures low { result ≤ 999 }
    {
        self.value_node(number).height
    }

    fn of_observation(&self, number: u32) -> u16
        requires { Stands self.now (an_observation number) }
        ensures exact { result ≡ height_of self.now (an_observation number) }
        ensures low { result ≤ 999 }
    {
        self.observation_node(number).height
    }

    fn of_cont(&self, cont: Cont) -> u16
        requires { Stands self.now (a_cont cont.0) }
        ensures exact { result ≡ height_of self.now (a_cont cont.0) }
        ensures low { result ≤ 999 }
    {
        self.cont_node(cont).height
    }

    // The highest of the cases.
    fn of_cases(&self, cases: &[u32]) -> u16
        requires { AllStand self.now (map a_case cases.now) }
        ensures exact { result ≡ greatest (map (height_of self.now) (map a_case cases.now)) }
        ensures low { result ≤ 999 }
    {
        let mut highest = 0;
        for case in cases {
            highest = self.case_node(*case).height.max(highest);
        }
        highest
    }
}
