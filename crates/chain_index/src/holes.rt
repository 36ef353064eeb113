//! Values by reference, in the order in which they came, with holes where some were taken out. So nothing moves but
//! where holes are closed, and each change costs the same whatever there is, taken over many.
ghost use Rattle.std.specs.Prelude.{◌≡◌, ◌++◌, ◌∷◌, [], ◌<◌, false, not, filter, is_some, Some};
ghost use Rattle.std.specs.Prelude.{IsOk, OnOk, OnErr, option_copied};
ghost use Rattle.std.specs.Map.{lookup, keys_of};
ghost use Rattle.ledger_spec.specs.EutxoTypes.Parts.{same_ref};
ghost use Rattle.indexmap.specs.IndexMap.{spare};
ghost use Rattle.chain_index.specs.Contents.{is_among};
ghost use Rattle.chain_index.specs.HolesSupport.{live, known, with_key, AreAmong};

use indexmap::{IndexMap, IndexSet};
use ledger_spec::{Memory, OutputRef};
use std::alloc::AllocError;

pub(crate) type Slots<V> = IndexMap<OutputRef, Option<V>>;

/// The value under a reference, where there is no hole.
pub(crate) fn value_at<'a, V>(slots: &'a Slots<V>, reference: &OutputRef) -> Option<&'a V>
    ensures { option_copied result ≡ lookup (same_ref reference.now) (live slots.now.entries) }
{
    // touch: keys differ
    let _len = slots.len();
    match slots.get(reference) {
        Some(Some(value)) => Some(value),
        Some(None) => None,
        None => None,
    }
}

/// Puts a value under a new reference. A refusal for memory changes nothing; where there is room, nothing is refused.
pub(crate) fn put<V: Drop>(
    slots: &mut Slots<V>,
    reference: OutputRef,
    value: V,
) -> Result<(), Memory>
    requires { is_among (known slots.old.entries) reference ≡ false }
    ensures ok { OnOk result (slots.new.entries ≡ slots.old.entries ++ (reference, Some value) ∷ []) }
    ensures err { OnErr result (slots.new.entries ≡ slots.old.entries) }
    ensures succeeds { 0 < spare slots.old → IsOk result }
{
    match slots.insert(reference, Some(value)) {
        Ok(_) => Ok(()),
        Err(_) => Err(AllocError),
    }
}

/// Notes a reference. A refusal for memory changes nothing.
pub(crate) fn note(set: &mut IndexSet<OutputRef>, reference: OutputRef) -> Result<(), Memory>
    ensures ok { OnOk result (set.new.keys ≡ with_key set.old.keys reference) }
    ensures err { OnErr result (set.new.keys ≡ set.old.keys) }
{
    match set.insert(reference) {
        Ok(_) => Ok(()),
        Err(_) => Err(AllocError),
    }
}

/// Whether a reference was noted.
pub(crate) fn is_noted(set: &IndexSet<OutputRef>, reference: &OutputRef) -> bool
    ensures { result ≡ is_among set.now.keys reference.now }
{
    set.contains(reference)
}

/// Makes a hole at a reference, and answers what was there. Takes no memory.
pub(crate) fn take_out<V: Drop>(slots: &mut Slots<V>, reference: &OutputRef) -> Option<V>
    ensures value { result ≡ lookup (same_ref reference.now) (live slots.old.entries) }
    ensures live { live slots.new.entries ≡ filter (λ e. not (same_ref reference.now e.0)) (live slots.old.entries) }
    ensures keys { keys_of slots.new.entries ≡ keys_of slots.old.entries }
{
    match slots.get_mut(reference) {
        Some(slot) => slot.take(),
        None => None,
    }
}

// Closes all holes, in one pass. Takes no memory.
fn close<V: Drop>(slots: &mut Slots<V>)
    ensures { slots.new.entries ≡ filter (λ e. is_some e.1) slots.old.entries }
{
    slots.retain(
        |_reference: &OutputRef, slot: &mut Option<V>| -> bool
            ensures { (result ≡ is_some slot.old) × (slot.new ≡ slot.old) }
        { slot.is_some() },
    );
}

/// Closes the holes where they are more than half of the entries, and answers how many holes there are then. Takes no
/// memory.
#[tactic(auto, using(crate::proofs::LiveLemmas::closed, crate::proofs::LiveLemmas::fewer_known))]
pub(crate) fn close_if_many<V: Drop>(slots: &mut Slots<V>, holes: usize) -> usize
    ensures live { live slots.new.entries ≡ live slots.old.entries }
    ensures known { AreAmong (known slots.new.entries) (known slots.old.entries) }
{
    if holes > slots.len() / 2 {
        close(slots);
        0
    } else {
        holes
    }
}
