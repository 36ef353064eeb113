//! Scripts by their ids.
ghost use Rattle.std.specs.Prelude.{◌≡◌, ◌↔◌, IsTrue, IfOk, OnOk, OnErr, MatchResult, option_copied};
ghost use Rattle.std.proofs.Math.Dec.{T};
ghost use Rattle.std.specs.FinMap as map;
ghost use Rattle.std.specs.FinMap.{find, put, is_sorted, from_sorted};
ghost use Rattle.contract.specs.Names.Orders.{bytes_cmp};
ghost use Rattle.contract.proofs.FromCollections.Places.{IsAt, IsGap};
ghost use Rattle.eutxo.specs.Found.{script_at, same_scripts, same_entries};

use crate::shared::Shared;
use contract::{Entries, Memory, Same, TryClone};
use std::alloc::Global;
use std::marker::Model;

// A script under its id.
type Entry<V> = ([u8; 32], Shared<V>);

/// Scripts by their ids, kept in the order of the ids, each id once. Clauses see the finite map from ids
/// to scripts.
#[derive(Drop)]
pub struct Scripts<V> {
    entries: Vec<Entry<V>>,
}

impl<V> Model for Scripts<V> {
    ghost use Rattle.std.specs.FinMap.{FinMap, code, from_sorted, is_sorted};
    ghost use Rattle.std.specs.Coded.{coded_list, coded_ℕ};
    ghost use Rattle.std.proofs.Math.Dec.{T};
    ghost use Rattle.contract.specs.Names.Orders.{bytes_cmp};

    ghost Value = { FinMap bytes_cmp V };

    ghost coded = { code (coded_list coded_ℕ) V.code };

    ghost view = { λ a. from_sorted a.entries.items };

    ghost invariant = { λ a. T (is_sorted bytes_cmp a.entries.items) };
}

impl<V> Scripts<V> {
    /// No scripts yet, in a map that will take memory from `alloc`.
    pub fn new(alloc: Global) -> Scripts<V>
        ensures { result ≡ map.empty }
    {
        Scripts {
            entries: Vec::new(alloc),
        }
    }

    /// The scripts of these entries. Takes no memory.
    pub fn from_entries(entries: Entries<[u8; 32], Shared<V>>) -> Scripts<V>
        ensures { result ≡ from_sorted entries }
    {
        Scripts {
            entries: entries.into_vec(),
        }
    }

    /// The script with an id, if it is there. It takes logarithmic time and no memory.
    pub fn get(&self, id: &[u8; 32]) -> Option<&V>
        ensures { option_copied result ≡ script_at self.now id.now }
    {
        script_in(self.list(), id)
    }

    /// Puts a script under its id, in place of one that is there. A refusal for memory changes nothing.
    pub fn insert(&mut self, id: [u8; 32], script: Shared<V>) -> Result<(), Memory>
    where
        V: Drop,
        ensures ok { OnOk result (self.new ≡ map.insert self.old id script) }
        ensures err { OnErr result (self.new ≡ self.old) }
    {
        put_script(&mut self.entries, id, script)
    }

    /// Whether the ids are the same, and the scripts under each of them equal.
    pub fn equals(&self, other: &Scripts<V>) -> bool
    where
        V: PartialEq,
        ensures { result ≡ same_scripts V.eq self.now other.now }
    {
        equal_entries(self.list(), other.list())
    }

    // The scripts in the order of their ids.
    fn list(&self) -> &[Entry<V>]
        ensures makes { from_sorted result.now ≡ self.now }
        ensures all { result.now ≡ map.entries self.now }
        ensures sorted { T (is_sorted bytes_cmp result.now) }
    {
        &self.entries
    }

    /// What its memory is taken from.
    pub(crate) fn allocator(&self) -> Global {
        *self.entries.allocator()
    }
}

// Where the script with this id is, or where it would go.
fn place_of<V>(entries: &[Entry<V>], id: &[u8; 32]) -> Result<usize, usize>
    requires { T (is_sorted bytes_cmp entries.now) }
    ensures { MatchResult result (IsAt bytes_cmp id.now entries.now) (IsGap bytes_cmp id.now entries.now) }
{
    entries.binary_search_by(|entry| entry.0.cmp(id))
}

fn script_in<'a, V>(entries: &'a [Entry<V>], id: &[u8; 32]) -> Option<&'a V>
    requires { T (is_sorted bytes_cmp entries.now) }
    ensures { option_copied result ≡ find bytes_cmp id.now entries.now }
{
    match place_of(entries, id) {
        Ok(at) => Some(entries[at].1.get()),
        Err(_) => None,
    }
}

fn put_script<V: Drop>(
    entries: &mut Vec<Entry<V>>,
    id: [u8; 32],
    script: Shared<V>,
) -> Result<(), Memory>
    requires { T (is_sorted bytes_cmp entries.old.items) }
    ensures sorted { T (is_sorted bytes_cmp entries.new.items) }
    ensures ok { OnOk result (entries.new.items ≡ put bytes_cmp id script entries.old.items) }
    ensures err { OnErr result (entries.new.items ≡ entries.old.items) }
{
    match place_of(entries, &id) {
        Ok(at) => {
            entries[at].1 = script;
            Ok(())
        }
        Err(at) => {
            entries.insert(at, (id, script))?;
            Ok(())
        }
    }
}

fn copies_of<V>(alloc: Global, entries: &[Entry<V>]) -> Result<Vec<Entry<V>>, Memory>
where
    V: Drop,
    ensures { IfOk result (λ copies. copies.items ≡ entries.now) }
{
    let mut copies = Vec::with_capacity(alloc, entries.len())?;
    for (id, script) in entries {
        copies.push((*id, script.try_clone()?))?;
    }
    Ok(copies)
}

impl<V: Drop> TryClone for Scripts<V> {
    fn try_clone(&self) -> Result<Scripts<V>, Memory> {
        let entries = copies_of(*self.entries.allocator(), &self.entries)?;
        Ok(Scripts { entries })
    }
}

fn equal_entries<V: PartialEq>(xs: &[Entry<V>], ys: &[Entry<V>]) -> bool
    ensures { result ≡ same_entries V.eq xs.now ys.now }
{
    *xs == *ys
}

fn same_entry<V: Same>(x: &Entry<V>, y: &Entry<V>) -> bool
    ensures { IsTrue result ↔ (x.now ≡ y.now) }
{
    x.0 == y.0 && x.1.same(&y.1)
}

fn are_same<V: Same>(xs: &[Entry<V>], ys: &[Entry<V>]) -> bool
    ensures { IsTrue result ↔ (xs.now ≡ ys.now) }
{
    if xs.len() != ys.len() {
        return false;
    }
    for i in 0..xs.len() {
        if !same_entry(&xs[i], &ys[i]) {
            return false;
        }
    }
    true
}

impl<V: Same> Same for Scripts<V> {
    fn same(&self, other: &Scripts<V>) -> bool {
        are_same(self.list(), other.list())
    }
}
