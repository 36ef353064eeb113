//! The table that is being made, a node at a time.
ghost use Rattle.std.specs.Prelude.{◌≡◌, ◌<◌, ◌≤◌, length, IfOk, OnErr};
ghost use Rattle.table.specs.Heights.{value_height, observation_height, case_height, contract_height};
ghost use Rattle.table.specs.Flat.{nothing, trees, value_of, observation_of, case_of, cont_of, value_parts, observation_parts, case_parts, cont_parts, AllStand, IsFlat};
ghost use Rattle.table_builder.specs.Putting.{put_value, put_observation, put_case, put_cont, others_in};

use crate::node_index::{Nodes, Place};
use std::alloc::Global;
use std::marker::Model;
use table::collections::Memory;
use table::{CaseNode, Cont, ContNode, ObservationNode, Table, ValueNode};

/// A table that is being made, in which equal nodes stand once. Clauses see it as the table's four lists.
#[derive(Drop)]
pub struct Builder {
    table: Table,
    values: Nodes<ValueNode>,
    observations: Nodes<ObservationNode>,
    cases: Nodes<CaseNode>,
    conts: Nodes<ContNode>,
}

impl Model for Builder {
    ghost use Rattle.table.specs.Flat.{Flat};
    ghost use Rattle.table_builder.specs.Indexing.{IsIndexed};

    ghost Value = { Flat };

    ghost view = { λ b. b.table };

    ghost invariant = { λ b. IsIndexed b.table b.values b.observations b.cases b.conts };
}

impl Builder {
    /// A table without nodes, which will take memory from `alloc`.
    pub fn new(alloc: Global) -> Builder
        ensures { result ≡ nothing }
    {
        Builder {
            table: Table::new(alloc),
            values: Nodes::new(alloc),
            observations: Nodes::new(alloc),
            cases: Nodes::new(alloc),
            conts: Nodes::new(alloc),
        }
    }

    /// The table that was made. Takes no memory.
    pub fn into_table(self) -> Table
        ensures same { result ≡ self }
        ensures flat { IsFlat result }
    {
        let Builder { table, .. } = self;
        table.hold_together();
        table
    }

    /// Puts a value's node into the table, and answers its number. What it names stands already, it is at most
    /// 999 high, and the table has fewer than 1,000,000 values, observations and cases. Or memory is refused.
    #[tactic(auto, unfolding(crate::specs::Putting::put_value))]
    pub fn put_value(&mut self, node: ValueNode) -> Result<u32, Memory>
        requires stand { AllStand self.old (value_parts node) }
        requires low { value_height (value_of (trees self.old) node) ≤ 999 }
        requires room { others_in self.old < 1000000 }
        ensures code { IfOk result (λ _. self.new ≡ (put_value self.old node).0) }
        ensures number { IfOk result (λ k. k ≡ (put_value self.old node).1) }
        ensures unchanged { OnErr result (self.new ≡ self.old) }
    {
        match self.values.place(node)? {
            Place::Stands(number) => Ok(number),
            Place::New(node) => {
                let pushed = self.table.push_value(node);
                if pushed.is_err() {
                    self.values.take_back();
                }
                pushed
            }
        }
    }

    /// Puts an observation's node into the table, likewise.
    #[tactic(auto, unfolding(crate::specs::Putting::put_observation))]
    pub fn put_observation(&mut self, node: ObservationNode) -> Result<u32, Memory>
        requires stand { AllStand self.old (observation_parts node) }
        requires low { observation_height (observation_of (trees self.old) node) ≤ 999 }
        requires room { others_in self.old < 1000000 }
        ensures code { IfOk result (λ _. self.new ≡ (put_observation self.old node).0) }
        ensures number { IfOk result (λ k. k ≡ (put_observation self.old node).1) }
        ensures unchanged { OnErr result (self.new ≡ self.old) }
    {
        match self.observations.place(node)? {
            Place::Stands(number) => Ok(number),
            Place::New(node) => {
                let pushed = self.table.push_observation(node);
                if pushed.is_err() {
                    self.observations.take_back();
                }
                pushed
            }
        }
    }

    /// Puts a case's node into the table, likewise.
    #[tactic(auto, unfolding(crate::specs::Putting::put_case))]
    pub fn put_case(&mut self, node: CaseNode) -> Result<u32, Memory>
        requires stand { AllStand self.old (case_parts node) }
        requires low { case_height (case_of (trees self.old) node) ≤ 999 }
        requires room { others_in self.old < 1000000 }
        ensures code { IfOk result (λ _. self.new ≡ (put_case self.old node).0) }
        ensures number { IfOk result (λ k. k ≡ (put_case self.old node).1) }
        ensures unchanged { OnErr result (self.new ≡ self.old) }
    {
        match self.cases.place(node)? {
            Place::Stands(number) => Ok(number),
            Place::New(node) => {
                let pushed = self.table.push_case(node);
                if pushed.is_err() {
                    self.cases.take_back();
                }
                pushed
            }
        }
    }

    /// Puts a continuation's node into the table, likewise, where the table has fewer than 65,535 continuations.
    #[tactic(auto, unfolding(crate::specs::Putting::put_cont))]
    pub fn put_cont(&mut self, node: ContNode) -> Result<Cont, Memory>
        requires stand { AllStand self.old (cont_parts node) }
        requires low { contract_height (cont_of (trees self.old) node) ≤ 999 }
        requires room { length self.old.conts < 65535 }
        ensures code { IfOk result (λ _. self.new ≡ (put_cont self.old node).0) }
        ensures number { IfOk result (λ k. k ≡ (put_cont self.old node).1) }
        ensures unchanged { OnErr result (self.new ≡ self.old) }
    {
        match self.conts.place(node)? {
            Place::Stands(number) => Ok(Cont(number)),
            Place::New(node) => {
                let pushed = self.table.push_cont(node);
                if pushed.is_err() {
                    self.conts.take_back();
                }
                pushed
            }
        }
    }
}
