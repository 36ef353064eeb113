//! The nodes of one list of a table, in an index by which an equal one is found.
ghost use Rattle.std.specs.Prelude.{◌≡◌, ◌<◌, List, ◌++◌, [], ◌∷◌, length, position, IfOk, OnOk, OnErr};
ghost use Rattle.table_builder.specs.Indexing.{IsPlace, with_node};

use indexmap::IndexSet;
use std::alloc::Global;
use std::hash::Hash;
use std::marker::Model;
use table::collections::{Memory, TryClone};

/// The nodes of one list, each once, in the order of their numbers. Clauses see them as a list.
#[derive(Drop)]
pub(crate) struct Nodes<N: Eq + Hash> {
    index: IndexSet<N>,
}

impl<N: Eq + Hash> Model for Nodes<N> {
    ghost use Rattle.std.specs.Prelude.{List};

    ghost Value = { List N };

    ghost view = { λ nodes. nodes.index.keys };
}

/// What became of a node: the number of the equal one that stands, or the node, where none does.
pub(crate) enum Place<N> {
    Stands(u32),
    New(N),
}

impl<N: Eq + Hash + TryClone + Drop> Nodes<N> {
    /// No nodes, in an index that will take memory from `alloc`.
    pub(crate) fn new(alloc: Global) -> Nodes<N>
        ensures { result ≡ [] }
    {
        Nodes {
            index: IndexSet::new(alloc),
        }
    }

    /// The number of the node that is equal to this one, which is dropped; or the node, of which the index has a copy
    /// then, at the end. Refused for memory, the nodes stay as they were.
    pub(crate) fn place(&mut self, node: N) -> Result<Place<N>, Memory>
        requires room { length self.old < 1000000 }
        ensures place { IfOk result (IsPlace (position (N.eq node) self.old) node) }
        ensures nodes { OnOk result (self.new ≡ with_node (position (N.eq node) self.old) self.old node) }
        ensures unchanged { OnErr result (self.new ≡ self.old) }
    {
        let (number, is_new) = self.index.insert_full(node)?;
        if !is_new {
            return Ok(Place::Stands(number as u32));
        }
        match self.index[number].try_clone() {
            Ok(copy) => Ok(Place::New(copy)),
            Err(refused) => {
                self.take_back();
                Err(refused)
            }
        }
    }

    /// Takes the last node out of the index.
    pub(crate) fn take_back(&mut self)
        ensures { (nodes : List N) (node : N) → self.old ≡ nodes ++ node ∷ [] → self.new ≡ nodes }
    {
        let _ = self.index.pop();
    }
}
