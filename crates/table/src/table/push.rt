//! Pushes: a node is added to its list.
ghost use Rattle.std.specs.Prelude.{◌≡◌, ◌<◌, ◌≤◌, length, IfOk, OnOk, OnErr};
ghost use Rattle.table.specs.Heights.{value_height, observation_height, case_height, contract_height};
ghost use Rattle.table.specs.Flat.{trees, value_of, observation_of, case_of, cont_of, value_tree, observation_tree, case_tree, cont_tree, Has, AllStand, a_value, an_observation, a_case, a_cont, value_parts, observation_parts, case_parts, cont_parts, Extends};
ghost use Rattle.table.specs.Pushing.{with_value, with_observation, with_case, with_cont};

use crate::table::Table;
use contract::Memory;
use nodes::{CaseNode, Cont, ContNode, Entry, ObservationNode, ValueNode};

impl Table {
    /// Adds a value's node and answers its number, which stands for the node's tree; every older number keeps its
    /// tree. Or is refused for memory, drops the node and changes nothing.
    pub fn push_value(&mut self, node: ValueNode) -> Result<u32, Memory>
        requires stand { AllStand self.old (value_parts node) }
        requires low { value_height (value_of (trees self.old) node) ≤ 999 }
        requires room { length self.old.values < 1000000 }
        ensures number { IfOk result (λ number. number ≡ length self.old.values) }
        ensures pushed { OnOk result (self.new ≡ with_value self.old node) }
        ensures stands { IfOk result (λ number. Has self.new (a_value number)) }
        ensures tree { IfOk result (λ number. value_tree self.new number ≡ value_of (trees self.old) node) }
        ensures keeps { OnOk result (Extends self.old self.new) }
        ensures unchanged { OnErr result (self.new ≡ self.old) }
    {
        let height = self.value_height(&node);
        let number = self.values.len() as u32;
        self.values.push(Entry { node, height })?;
        Ok(number)
    }

    /// Adds an observation's node and answers its number, which stands for the node's tree; every older number keeps its
    /// tree. Or is refused for memory, drops the node and changes nothing.
    pub fn push_observation(&mut self, node: ObservationNode) -> Result<u32, Memory>
        requires stand { AllStand self.old (observation_parts node) }
        requires low { observation_height (observation_of (trees self.old) node) ≤ 999 }
        requires room { length self.old.observations < 1000000 }
        ensures number { IfOk result (λ number. number ≡ length self.old.observations) }
        ensures pushed { OnOk result (self.new ≡ with_observation self.old node) }
        ensures stands { IfOk result (λ number. Has self.new (an_observation number)) }
        ensures tree { IfOk result (λ number. observation_tree self.new number ≡ observation_of (trees self.old) node) }
        ensures keeps { OnOk result (Extends self.old self.new) }
        ensures unchanged { OnErr result (self.new ≡ self.old) }
    {
        let height = self.observation_height(&node);
        let number = self.observations.len() as u32;
        self.observations.push(Entry { node, height })?;
        Ok(number)
    }

    /// Adds a case's node and answers its number, which stands for the node's tree; every older number keeps its
    /// tree. Or is refused for memory, drops the node and changes nothing.
    pub fn push_case(&mut self, node: CaseNode) -> Result<u32, Memory>
        requires stand { AllStand self.old (case_parts node) }
        requires low { case_height (case_of (trees self.old) node) ≤ 999 }
        requires room { length self.old.cases < 1000000 }
        ensures number { IfOk result (λ number. number ≡ length self.old.cases) }
        ensures pushed { OnOk result (self.new ≡ with_case self.old node) }
        ensures stands { IfOk result (λ number. Has self.new (a_case number)) }
        ensures tree { IfOk result (λ number. case_tree self.new number ≡ case_of (trees self.old) node) }
        ensures keeps { OnOk result (Extends self.old self.new) }
        ensures unchanged { OnErr result (self.new ≡ self.old) }
    {
        let height = self.case_height(&node);
        let number = self.cases.len() as u32;
        self.cases.push(Entry { node, height })?;
        Ok(number)
    }

    /// Adds a continuation's node and answers its number, which stands for the node's tree; every older number keeps its
    /// tree. Or is refused for memory, drops the node and changes nothing.
    pub fn push_cont(&mut self, node: ContNode) -> Result<Cont, Memory>
        requires stand { AllStand self.old (cont_parts node) }
        requires low { contract_height (cont_of (trees self.old) node) ≤ 999 }
        requires room { length self.old.conts < 1000000 }
        ensures number { IfOk result (λ cont. cont.0 ≡ length self.old.conts) }
        ensures pushed { OnOk result (self.new ≡ with_cont self.old node) }
        ensures stands { IfOk result (λ cont. Has self.new (a_cont cont.0)) }
        ensures tree { IfOk result (λ cont. cont_tree self.new cont.0 ≡ cont_of (trees self.old) node) }
        ensures keeps { OnOk result (Extends self.old self.new) }
        ensures unchanged { OnErr result (self.new ≡ self.old) }
    {
        let height = self.cont_height(&node);
        let number = self.conts.len() as u32;
        self.conts.push(Entry { node, height })?;
        Ok(Cont(number))
    }
}
