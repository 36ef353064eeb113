//! Tables.
mod decompile;
mod evaluate;
mod height;
mod lend;
mod push;
mod same;
mod timeout;

ghost use Rattle.std.specs.Prelude.{◌≡◌, ◌↔◌, true, IsTrue};
ghost use Rattle.table.specs.Flat.{nothing, IsFlat, Has, a_value, an_observation, a_case, a_cont};
ghost use Rattle.table.specs.Along.{has_cont, TurnsLead};

use nodes::{CaseNode, Cont, ContNode, Entry, ObservationNode, ValueNode};
use std::alloc::Global;
use std::marker::Model;

/// Contracts as four flat lists of nodes: values, observations, cases and continuations. A node names only
/// numbers that stand, of less height, and no height is above 999. Clauses see a table as its four lists.
#[derive(Drop)]
pub struct Table {
    values: Vec<Entry<ValueNode>>,
    observations: Vec<Entry<ObservationNode>>,
    cases: Vec<Entry<CaseNode>>,
    conts: Vec<Entry<ContNode>>,
}

impl Model for Table {
    ghost use Rattle.table.specs.Flat.{Flat, IsFlat};

    ghost Value = { Flat };

    ghost view = { λ t. record { values = t.values.items; observations = t.observations.items; cases = t.cases.items; conts = t.conts.items } };

    ghost invariant = { λ t. IsFlat (record { values = t.values.items; observations = t.observations.items; cases = t.cases.items; conts = t.conts.items }) };
}

impl Table {
    /// No nodes yet, in lists that will take memory from `alloc`.
    pub fn new(alloc: Global) -> Table
        ensures { result ≡ nothing }
    {
        Table {
            values: Vec::new(alloc),
            observations: Vec::new(alloc),
            cases: Vec::new(alloc),
            conts: Vec::new(alloc),
        }
    }

    /// What holds of every table: each node names standing nodes, and has the height that they give it, at most
    /// 999. It does nothing.
    pub fn hold_together(&self)
        ensures { IsFlat self.now }
    {
        // touch: brings the invariant
        let _values = self.values.len();
    }

    /// What holds of every table: the test of a continuation's number is exact, and turns that a continuation's
    /// tree has lead to a continuation, which stands for the part of the tree that they lead to. It does nothing.
    #[tactic(auto, using(crate::specs::AlongLaws::has_is, crate::specs::AlongLaws::turns_lead))]
    pub fn turns_lead(&self)
        ensures test { (k : Cont) → (has_cont self.now k ≡ true) ↔ Has self.now (a_cont k.0) }
        ensures turns { TurnsLead self.now }
    {
        // touch: brings the invariant
        let _conts = self.conts.len();
    }

    /// Whether a continuation is one of the table; takes no memory.
    pub fn contains(&self, cont: Cont) -> bool
        ensures stands { IsTrue result ↔ Has self.now (a_cont cont.0) }
        ensures test { result ≡ has_cont self.now cont }
    {
        (cont.0 as usize) < self.conts.len()
    }

    /// Whether a number is that of a value; takes no memory.
    pub fn has_value(&self, number: u32) -> bool
        ensures { IsTrue result ↔ Has self.now (a_value number) }
    {
        (number as usize) < self.values.len()
    }

    /// Whether a number is that of an observation; takes no memory.
    pub fn has_observation(&self, number: u32) -> bool
        ensures { IsTrue result ↔ Has self.now (an_observation number) }
    {
        (number as usize) < self.observations.len()
    }

    /// Whether a number is that of a case; takes no memory.
    pub fn has_case(&self, number: u32) -> bool
        ensures { IsTrue result ↔ Has self.now (a_case number) }
    {
        (number as usize) < self.cases.len()
    }
}
