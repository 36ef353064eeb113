//! Places of entries, and the outputs at them.
ghost use Rattle.std.specs.Prelude.{◌≡◌, ◌++◌, ◌||◌, ◌&&◌, ℕ, slice_get, Some, OnOk};
ghost use Rattle.ledger_spec.specs.EutxoTypes.Parts.{same_ref};
ghost use Rattle.chain_index.specs.Contents.{is_among};
ghost use Rattle.chain_index.specs.LocksSupport.{is_named};
ghost use Rattle.chain_index.specs.UnderLocksSupport.{is_shown, passes_at, is_place, has_place, row};

use crate::holes::{Slots, is_noted};
use crate::lock_name::{LockName, is_named};
use indexmap::IndexSet;
use ledger_spec::{Items, Memory, Output, OutputRef, TryClone, Unspent};
use std::alloc::AllocError;
use std::collections::BTreeSet;

// Whether an output is under the lock of this name and doesn't leave.
fn is_shown(
    leaving: &IndexSet<OutputRef>,
    name: &LockName,
    reference: &OutputRef,
    output: &Output,
) -> bool
    ensures { result ≡ is_shown (is_named name.now) leaving.now.keys (reference.now, Some output.now) }
{
    is_named(name, &output.lock) && !is_noted(leaving, reference)
}

// The place of the output that a reference names, where it is under the lock of this name and doesn't leave.
fn place_of(
    slots: &Slots<Output>,
    leaving: &IndexSet<OutputRef>,
    name: &LockName,
    reference: &OutputRef,
) -> Option<usize>
    ensures { (i : ℕ) → is_place result i
        ≡ passes_at (λ e. same_ref e.0 reference.now && is_shown (is_named name.now) leaving.now.keys e)
        slots.now.entries i }
{
    // touch: keys differ
    let _len = slots.len();
    match slots.get_full(reference) {
        Some((place, key, Some(output))) => {
            if is_shown(leaving, name, key, output) {
                Some(place)
            } else {
                None
            }
        }
        Some((_, _, None)) => None,
        None => None,
    }
}

fn add_place(places: &mut BTreeSet<usize>, place: Option<usize>) -> Result<(), Memory>
    ensures { OnOk result ((i : ℕ) → has_place places.new.keys i ≡ (is_place place i || has_place places.old.keys i)) }
{
    match place {
        Some(place) => match places.insert(place) {
            Ok(_) => Ok(()),
            Err(_) => Err(AllocError),
        },
        None => Ok(()),
    }
}

/// Adds the places of the outputs that these references name, where they are under the lock of this name and don't
/// leave.
pub(crate) fn collect(
    slots: &Slots<Output>,
    leaving: &IndexSet<OutputRef>,
    name: &LockName,
    references: &[OutputRef],
    places: &mut BTreeSet<usize>,
) -> Result<(), Memory>
    ensures { OnOk result ((i : ℕ) → has_place places.new.keys i
        ≡ (passes_at (λ e. is_among references.now e.0 && is_shown (is_named name.now) leaving.now.keys e)
        slots.now.entries i || has_place places.old.keys i)) }
{
    for reference in references {
        add_place(places, place_of(slots, leaving, name, reference))?;
    }
    Ok(())
}

/// Adds a copy of the output at a place, where there is one.
pub(crate) fn show(
    slots: &Slots<Output>,
    place: usize,
    shown: &mut Items<Unspent>,
) -> Result<(), Memory>
    ensures { OnOk result (shown.new ≡ shown.old ++ row (slice_get slots.now.entries place)) }
{
    match slots.get_index(place) {
        Some((reference, Some(output))) => {
            let output = output.try_clone()?;
            let reference = *reference;
            shown.push(Unspent { reference, output })
        }
        Some((_, None)) => Ok(()),
        None => Ok(()),
    }
}
