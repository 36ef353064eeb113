//! Outputs in the order in which they came, with holes where some were spent, found by reference and by lock.
ghost use Rattle.std.specs.Prelude.{◌≡◌, ◌++◌, ◌∷◌, [], ◌-◌, ◌||◌, ℕ, false, not, filter, length, take, slice_get};
ghost use Rattle.std.specs.Prelude.{Some, OnOk, OnErr, option_copied};
ghost use Rattle.std.specs.Map.{lookup, keys_of};
ghost use Rattle.ledger_spec.specs.EutxoTypes.Parts.{same_ref};
ghost use Rattle.chain_index.specs.Contents.{is_among};
ghost use Rattle.chain_index.specs.HolesSupport.{live, staying, known, AreAmong};
ghost use Rattle.chain_index.specs.LocksSupport.{is_named};
ghost use Rattle.chain_index.specs.UnderLocksSupport.{is_shown, passes_at, has_place, row};

use crate::by_lock::{ByLock, list, refs_under, unlist};
use crate::holes::{Slots, close_if_many, put, take_out, value_at};
use crate::lock_name::LockName;
use crate::places::{collect, show};
use indexmap::{IndexMap, IndexSet};
use ledger_spec::{Datum, Items, Memory, Output, OutputRef, Unspent};
use std::alloc::Global;
use std::collections::BTreeSet;
use std::marker::Model;

/// Outputs by reference, in order, with holes; clauses see these entries. Just those that are there are listed by their
/// locks.
#[derive(Drop)]
pub(crate) struct Outputs {
    entries: Slots<Output>,
    by_lock: ByLock,
}

impl Model for Outputs {
    ghost use Rattle.std.specs.Prelude.{List, Option};
    ghost use Rattle.std.specs.Coded.{codes};
    ghost use Rattle.ledger_spec.specs.EutxoTypes.declared.output.Output.{Output};
    ghost use Rattle.ledger_spec.specs.EutxoTypes.declared.output_ref.OutputRef.{OutputRef};
    ghost use Rattle.ledger_spec.specs.EutxoTypes.contracts.output.Output as outputs;
    ghost use Rattle.ledger_spec.specs.EutxoTypes.contracts.output_ref.OutputRef as references;
    ghost use Rattle.chain_index.specs.HolesSupport.{live};
    ghost use Rattle.chain_index.specs.LocksSupport.{AreListed};

    ghost Value = { List (OutputRef × Option Output) };

    ghost coded = { Prim.hlevel (codes, outputs.the_row.coded, references.the_row.coded) };

    ghost view = { λ a. a.entries.entries };

    ghost invariant = { λ a. AreListed a.by_lock.entries (live a.entries.entries) };
}

impl Outputs {
    /// No outputs. Takes no memory.
    pub(crate) fn new(alloc: Global) -> Outputs
        ensures { result ≡ [] }
    {
        Outputs {
            entries: IndexMap::new(alloc),
            by_lock: IndexMap::new(alloc),
        }
    }

    /// How many entries there are, holes among them.
    pub(crate) fn len(&self) -> usize
        ensures { result ≡ length self.now }
    {
        self.entries.len()
    }

    /// Puts an output under a new reference. A refusal for memory changes nothing.
    pub(crate) fn put(&mut self, reference: OutputRef, output: Output) -> Result<(), Memory>
        requires { is_among (known self.old) reference ≡ false }
        ensures ok { OnOk result (self.new ≡ self.old ++ (reference, Some output) ∷ []) }
        ensures err { OnErr result (self.new ≡ self.old) }
    {
        // room first: what is listed gets its entry
        self.entries.reserve(1)?;
        list(&mut self.by_lock, reference, &output)?;
        put(&mut self.entries, reference, output)
    }

    // Makes a hole at a reference. Takes no memory.
    fn take_out(&mut self, reference: &OutputRef)
        ensures live { live self.new ≡ filter (λ e. not (same_ref reference.now e.0)) (live self.old) }
        ensures keys { keys_of self.new ≡ keys_of self.old }
    {
        let spent = take_out(&mut self.entries, reference);
        unlist(&mut self.by_lock, reference, spent);
    }

    // Drops the last entry. Takes no memory.
    fn drop_last(&mut self)
        ensures { self.new ≡ take (length self.old - 1) self.old }
    {
        if let Some((reference, output)) = self.entries.pop() {
            unlist(&mut self.by_lock, &reference, output);
        }
    }

    /// Closes the holes where they are more than half of the entries, and answers how many holes there are then. Takes
    /// no memory.
    pub(crate) fn close_if_many(&mut self, holes: usize) -> usize
        ensures live { live self.new ≡ live self.old }
        ensures known { AreAmong (known self.new) (known self.old) }
    {
        close_if_many(&mut self.entries, holes)
    }

    // ---- look-ups

    /// The output under a reference, where there is no hole.
    pub(crate) fn value_at(&self, reference: &OutputRef) -> Option<&Output>
        ensures { option_copied result ≡ lookup (same_ref reference.now) (live self.now) }
    {
        value_at(&self.entries, reference)
    }

    /// Adds the places of the outputs that are under the lock of this name and don't leave.
    pub(crate) fn collect(
        &self,
        leaving: &IndexSet<OutputRef>,
        name: &LockName,
        places: &mut BTreeSet<usize>,
    ) -> Result<(), Memory>
        ensures { OnOk result ((i : ℕ) → has_place places.new.keys i
            ≡ (passes_at (is_shown (is_named name.now) leaving.now.keys) self.now i || has_place places.old.keys i)) }
    {
        // touch: keys differ
        let _len = self.entries.len();
        collect(
            &self.entries,
            leaving,
            name,
            refs_under(&self.by_lock, name),
            places,
        )
    }

    /// Adds a copy of the output at a place.
    pub(crate) fn show(&self, place: usize, shown: &mut Items<Unspent>) -> Result<(), Memory>
        ensures { OnOk result (shown.new ≡ shown.old ++ row (slice_get self.now place)) }
    {
        show(&self.entries, place, shown)
    }
}

// One more, where something was taken out.
fn one_more<V: Drop>(count: usize, taken: Option<V>) -> usize {
    match taken {
        Some(_) => count.saturating_add(1),
        None => count,
    }
}

/// Makes holes at all these references, among outputs and data, and forgets these. Answers how many holes it made among
/// the data. Takes no memory.
pub(crate) fn take_all_out(
    outputs: &mut Outputs,
    datums: &mut Slots<Datum>,
    set: &mut IndexSet<OutputRef>,
) -> usize
    ensures live { live outputs.new ≡ staying set.old.keys (live outputs.old) }
    ensures keys { keys_of outputs.new ≡ keys_of outputs.old }
    ensures live_datums { live datums.new.entries ≡ staying set.old.keys (live datums.old.entries) }
    ensures datum_keys { keys_of datums.new.entries ≡ keys_of datums.old.entries }
    ensures empty { set.new.keys ≡ [] }
{
    let mut gone = 0usize;
    while let Some(reference) = set.pop() {
        outputs.take_out(&reference);
        gone = one_more(gone, take_out(datums, &reference));
    }
    gone
}

/// Drops the entries from the end until there are no more than this many. Takes no memory.
pub(crate) fn truncate(outputs: &mut Outputs, len: usize)
    ensures { outputs.new ≡ take len outputs.old }
{
    while outputs.len() > len {
        outputs.drop_last();
    }
}
