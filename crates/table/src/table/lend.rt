//! Nodes, lent with their heights, one by one or a list at a time.
ghost use Rattle.std.specs.Prelude.{◌≡◌, ◌≤◌};
ghost use Rattle.table.specs.Heights.{value_height, observation_height, case_height, contract_height};
ghost use Rattle.table.specs.Flat.{trees, value_of, observation_of, case_of, cont_of, value_tree, observation_tree, case_tree, cont_tree, value_entry, observation_entry, case_entry, cont_entry, Stands, AllStand, Has, is_close, a_value, an_observation, a_case, a_cont, value_parts, observation_parts, case_parts, cont_parts};

use crate::table::Table;
use nodes::{CaseNode, Cont, ContNode, Entry, ObservationNode, ValueNode};

impl Table {
    /// All values in order, each with its height; takes no memory.
    pub fn values(&self) -> &[Entry<ValueNode>]
        ensures { result.now ≡ self.now.values }
    {
        self.values.as_slice()
    }

    /// All observations in order, each with its height; takes no memory.
    pub fn observations(&self) -> &[Entry<ObservationNode>]
        ensures { result.now ≡ self.now.observations }
    {
        self.observations.as_slice()
    }

    /// All cases in order, each with its height; takes no memory.
    pub fn cases(&self) -> &[Entry<CaseNode>]
        ensures { result.now ≡ self.now.cases }
    {
        self.cases.as_slice()
    }

    /// All continuations in order, each with its height; takes no memory.
    pub fn conts(&self) -> &[Entry<ContNode>]
        ensures { result.now ≡ self.now.conts }
    {
        self.conts.as_slice()
    }

    /// A value's node with its height; takes no memory. The number stands for the node's tree, what the node names
    /// stands, and the height is the tree's.
    pub fn value_node(&self, number: u32) -> &Entry<ValueNode>
        requires { Stands self.now (a_value number) }
        ensures entry { result.now ≡ value_entry self.now number }
        ensures tree { value_tree self.now number ≡ value_of (trees self.now) result.now.node }
        ensures stand { AllStand self.now (value_parts result.now.node) }
        ensures height { result.now.height ≡ value_height (value_tree self.now number) }
        ensures low { result.now.height ≤ 999 }
    {
        &self.values[number as usize]
    }

    /// An observation's node with its height; takes no memory.
    pub fn observation_node(&self, number: u32) -> &Entry<ObservationNode>
        requires { Stands self.now (an_observation number) }
        ensures entry { result.now ≡ observation_entry self.now number }
        ensures tree { observation_tree self.now number ≡ observation_of (trees self.now) result.now.node }
        ensures stand { AllStand self.now (observation_parts result.now.node) }
        ensures height { result.now.height ≡ observation_height (observation_tree self.now number) }
        ensures low { result.now.height ≤ 999 }
    {
        &self.observations[number as usize]
    }

    /// A case's node with its height; takes no memory.
    pub fn case_node(&self, number: u32) -> &Entry<CaseNode>
        requires { Stands self.now (a_case number) }
        ensures entry { result.now ≡ case_entry self.now number }
        ensures tree { case_tree self.now number ≡ case_of (trees self.now) result.now.node }
        ensures stand { AllStand self.now (case_parts result.now.node) }
        ensures height { result.now.height ≡ case_height (case_tree self.now number) }
        ensures low { result.now.height ≤ 999 }
    {
        &self.cases[number as usize]
    }

    /// A continuation's node with its height; takes no memory.
    pub fn cont_node(&self, cont: Cont) -> &Entry<ContNode>
        requires { Stands self.now (a_cont cont.0) }
        ensures entry { result.now ≡ cont_entry self.now cont.0 }
        ensures tree { cont_tree self.now cont.0 ≡ cont_of (trees self.now) result.now.node }
        ensures stand { AllStand self.now (cont_parts result.now.node) }
        ensures height { result.now.height ≡ contract_height (cont_tree self.now cont.0) }
        ensures low { result.now.height ≤ 999 }
    {
        &self.conts[cont.0 as usize]
    }

    /// Whether the contract of a continuation is Close; takes no memory.
    pub fn is_close(&self, cont: Cont) -> bool
        requires { Has self.now (a_cont cont.0) }
        ensures { result ≡ is_close (cont_tree self.now cont.0) }
    {
        match &self.cont_node(cont).node {
            ContNode::Close => true,
            ContNode::Pay(_, _, _, _, _) => false,
            ContNode::If(_, _, _) => false,
            ContNode::When(_, _, _) => false,
            ContNode::Let(_, _, _) => false,
            ContNode::Assert(_, _) => false,
        }
    }
}
