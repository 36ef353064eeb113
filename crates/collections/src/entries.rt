//! Sorted maps.
ghost use Rattle.std.specs.Prelude.{◌≡◌, ◌↔◌, [], List, false, length, IsTrue, IsOk, IfOk, IsSome, IfSome, OnOk, OnErr};
ghost use Rattle.std.proofs.Math.Dec.{T};
ghost use Rattle.std.specs.FinMap.{find, put, is_sorted};
ghost use Rattle.std.specs.List.{IsAllAdjacentAnswer};
ghost use Rattle.std.specs.List.Sorted.{IsPermutation};
ghost use Rattle.std.specs.Ordering.{is_lt};
ghost use Rattle.collections.specs.Repeats.{has_repeat};
ghost use Rattle.collections.specs.Keys.{without};
ghost use Rattle.collections.specs.Search.{search};

use crate::try_clone::{Memory, TryClone};
use std::alloc::Global;
use std::cmp::Ordering;
use std::marker::Model;
use std::mem;

/// What stands for a key of type `K`, as its borrowed parts do. The key itself is made only where
/// it is new to a map.
pub trait Probe<K: Ord> {
    /// The key that it stands for.
    ghost sought: { Self → K };

    /// How that key stands to another in the order of keys.
    fn order(&self, other: &K) -> Ordering
        ensures { result ≡ K.cmp (sought self.now) other.now };

    /// That key, or refused for memory.
    fn to_key(&self) -> Result<K, Memory>
        ensures { IfOk result (λ key. key ≡ sought self.now) };
}

/// A key stands for itself.
impl<K: Ord + TryClone> Probe<K> for K {
    ghost sought = { λ key. key };

    fn order(&self, other: &K) -> Ordering {
        self.cmp(other)
    }

    fn to_key(&self) -> Result<K, Memory> {
        self.try_clone()
    }
}

/// A map, which clauses see as the list of its entries in the order of their keys, each key once.
/// A look-up compares a number of keys in the logarithm of their number.
#[derive(Drop)]
pub struct Entries<K: Ord, V> {
    items: Vec<(K, V)>,
}

impl<K: Ord, V> Model for Entries<K, V> {
    ghost Value = { List (K × V) };

    ghost view = { λ a. a.items.items };

    ghost invariant = { λ a. T (is_sorted K.cmp a.items.items) };
}

impl<K: Ord, V> Entries<K, V> {
    /// No entries yet, in a map that will take memory from `alloc`.
    pub fn new(alloc: Global) -> Self
        ensures { result ≡ [] }
    {
        Entries {
            items: Vec::new(alloc),
        }
    }

    /// The entries, in the order of their keys.
    pub fn as_slice(&self) -> &[(K, V)]
        ensures all { result.now ≡ self.now }
        ensures sorted { T (is_sorted K.cmp self.now) }
    {
        &self.items
    }

    /// Gives the entries back in the order of their keys, and takes no memory.
    pub fn into_vec(self) -> Vec<(K, V)>
        ensures all { result.items ≡ self }
        ensures sorted { T (is_sorted K.cmp self) }
    {
        let Entries { items } = self;
        items
    }

    /// Takes all entries out, in the order of their keys. Takes no memory.
    pub fn take(&mut self) -> Vec<(K, V)>
        ensures taken { result.items ≡ self.old }
        ensures empty { self.new ≡ [] }
        ensures sorted { T (is_sorted K.cmp self.old) }
    {
        let none = Vec::new(*self.items.allocator());
        mem::replace(&mut self.items, none)
    }

    /// How many entries there are.
    pub fn len(&self) -> usize
        ensures { result ≡ length self.now }
    {
        self.items.len()
    }

    /// Whether there is no entry.
    pub fn is_empty(&self) -> bool
        ensures { IsTrue result ↔ (self.now ≡ []) }
    {
        self.items.is_empty()
    }
}

impl<K: Ord, V: Copy> Entries<K, V> {
    /// The value of a key, if it is there. It takes logarithmic time and no memory.
    pub fn get<Q: Probe<K>>(&self, key: &Q) -> Option<V>
        ensures value { result ≡ find K.cmp (Q.sought key.now) self.now }
        ensures sorted { T (is_sorted K.cmp self.now) }
    {
        match search(&self.items, key) {
            Ok(at) => Some(self.items[at].1),
            Err(_) => None,
        }
    }
}

impl<K: Ord + Drop, V: Drop> Entries<K, V> {
    /// The map of n entries in any order, or nothing if a key is given twice. It takes no memory
    /// and n log n steps.
    pub fn from_vec(mut entries: Vec<(K, V)>) -> Option<Self>
        ensures unique { IsSome result ↔ (has_repeat K.cmp entries.items ≡ false) }
        ensures found { IfSome result
            (λ map. (key : K) → find K.cmp key map ≡ find K.cmp key entries.items) }
        ensures same_entries { IfSome result (λ map. IsPermutation entries.items map) }
        ensures sorted { IfSome result (λ map. T (is_sorted K.cmp map)) }
    {
        entries.sort_unstable_by(|a, b| a.0.cmp(&b.0));
        if rises(&entries) {
            Some(Entries { items: entries })
        } else {
            None
        }
    }

    /// Sets the value of a key. Memory is taken only for a new key: where it is refused, the map is
    /// as before. A known key keeps its place, and takes logarithmic time.
    pub fn set<Q: Probe<K>>(&mut self, key: &Q, value: V) -> Result<(), Memory>
        ensures ok { OnOk result (self.new ≡ put K.cmp (Q.sought key.now) value self.old) }
        ensures err { OnErr result (self.new ≡ self.old) }
        ensures known { IsSome (find K.cmp (Q.sought key.now) self.old) → IsOk result }
        ensures sorted { T (is_sorted K.cmp self.old) }
    {
        match search(&self.items, key) {
            Ok(at) => {
                self.items[at].1 = value;
                Ok(())
            }
            Err(at) => {
                let new = key.to_key()?;
                Ok(self.items.insert(at, (new, value))?)
            }
        }
    }

    /// Removes a key with its value, if it is there. Takes no memory.
    pub fn remove<Q: Probe<K>>(&mut self, key: &Q)
        ensures removed { self.new ≡ without K.cmp (Q.sought key.now) self.old }
        ensures sorted { T (is_sorted K.cmp self.old) }
    {
        match search(&self.items, key) {
            Ok(at) => {
                let _ = self.items.remove(at);
            }
            Err(_) => {}
        }
    }
}

impl<K: Ord + TryClone + Drop, V: Copy> TryClone for Entries<K, V> {
    fn try_clone(&self) -> Result<Self, Memory> {
        let items = copies_of(*self.items.allocator(), &self.items)?;
        Ok(Entries { items })
    }
}

fn copies_of<K: TryClone + Drop, V: Copy>(
    alloc: Global,
    entries: &[(K, V)],
) -> Result<Vec<(K, V)>, Memory>
    ensures { IfOk result (λ copies. copies.items ≡ entries.now) }
{
    let mut copies = Vec::with_capacity(alloc, entries.len())?;
    for (key, value) in entries {
        copies.push((key.try_clone()?, *value))?;
    }
    Ok(copies)
}

// Whether each key is less than the next.
fn rises<K: Ord, V>(entries: &[(K, V)]) -> bool
    ensures { IsAllAdjacentAnswer (λ x y b. b ≡ is_lt (K.cmp x.0 y.0)) entries.now result }
{
    entries.is_sorted_by(|a, b| a.0.cmp(&b.0).is_lt())
}

// Where the key is, or where it would go.
fn search<K: Ord, V, Q: Probe<K>>(entries: &[(K, V)], key: &Q) -> Result<usize, usize>
    requires { T (is_sorted K.cmp entries.now) }
    ensures { result ≡ search K.cmp (Q.sought key.now) entries.now }
{
    let mut low = 0;
    let mut high = entries.len();
    while low < high {
        let middle = low + (high - low) / 2;
        match key.order(&entries[middle].0) {
            Ordering::Less => high = middle,
            Ordering::Equal => return Ok(middle),
            Ordering::Greater => low = middle + 1,
        }
    }
    Err(low)
}
