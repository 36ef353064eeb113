//! What one worker gets.
ghost use Rattle.std.specs.Prelude.{◌≡◌, ◌++◌, ◌∷◌, [], IfOk, OnOk, MatchOption, length};

use eutxo::Memory;
use std::alloc::Global;
use std::collections::VecDeque;
use std::marker::Model;

/// What one worker gets, or has made of it, in order, each item with its place among those of all workers.
/// Clauses see the items alone: the places are for the gate.
#[derive(Drop)]
pub struct Batch<T> {
    placed: VecDeque<(usize, T)>,
}

impl<T> Model for Batch<T> {
    ghost use Rattle.std.specs.Prelude.{List, map};
    ghost use Rattle.std.specs.Coded.{coded_list};

    ghost Value = { List T };

    ghost coded = { coded_list T.code };

    ghost view = { λ batch. map (λ p. p.1) batch.placed.items };
}

impl<T> Batch<T> {
    /// Nothing yet, with room for so many items from the start: no push of that many moves the others.
    pub fn with_capacity(alloc: Global, count: usize) -> Result<Batch<T>, Memory>
        ensures { IfOk result (λ batch. batch ≡ []) }
    {
        Ok(Batch {
            placed: VecDeque::with_capacity(alloc, count)?,
        })
    }

    /// How many items there are.
    pub fn len(&self) -> usize
        ensures { result ≡ length self.now }
    {
        self.placed.len()
    }

    /// Puts an item at the end, with its place among all.
    pub fn push(&mut self, place: usize, item: T) -> Result<(), Memory>
    where
        T: Drop,
        ensures { OnOk result (self.new ≡ self.old ++ item ∷ []) }
    {
        self.placed.push_back((place, item))?;
        Ok(())
    }

    /// Takes the first item, with its place among all.
    pub fn pop(&mut self) -> Option<(usize, T)>
        ensures { MatchOption result (self.old ≡ []) (λ p. self.old ≡ p.1 ∷ self.new) }
    {
        self.placed.pop_front()
    }
}
