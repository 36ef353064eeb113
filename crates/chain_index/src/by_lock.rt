//! References of outputs, listed by the locks that the outputs are under.
ghost use Rattle.std.specs.Prelude.{◌≡◌, [], true, Some, None, OnOk, OnErr};
ghost use Rattle.std.specs.Map.{lookup};
ghost use Rattle.chain_index.specs.LocksSupport.{name_in, name_under, same_name, refs_under};
ghost use Rattle.chain_index.specs.LocksSupport.{IsListedAlike, ListsMore, ListsLess};

use crate::holes::note;
use crate::lock_name::{LockName, into_name, name_of};
use indexmap::{IndexMap, IndexSet};
use ledger_spec::{Memory, Output, OutputRef};
use std::alloc::AllocError;

pub(crate) type ByLock = IndexMap<LockName, IndexSet<OutputRef>>;

/// The references under a name, in no order.
pub(crate) fn refs_under<'a>(by_lock: &'a ByLock, name: &LockName) -> &'a [OutputRef]
    ensures { result.now ≡ refs_under by_lock.now.entries name.now }
{
    match by_lock.get(name) {
        Some(refs) => refs.as_slice(),
        None => &[],
    }
}

// ---- listed

// Lists a reference under a name that has none yet.
fn list_first(by_lock: &mut ByLock, name: LockName, reference: OutputRef) -> Result<(), Memory>
    requires { lookup (same_name name) by_lock.old.entries ≡ None }
    ensures ok { OnOk result (ListsMore (Some name) reference by_lock.old.entries by_lock.new.entries) }
    ensures err { OnErr result (IsListedAlike by_lock.old.entries by_lock.new.entries) }
{
    let mut refs = IndexSet::new(*by_lock.allocator());
    note(&mut refs, reference)?;
    match by_lock.insert(name, refs) {
        Ok(_) => Ok(()),
        Err(_) => Err(AllocError),
    }
}

fn list_under(by_lock: &mut ByLock, name: LockName, reference: OutputRef) -> Result<(), Memory>
    ensures ok { OnOk result (ListsMore (Some name) reference by_lock.old.entries by_lock.new.entries) }
    ensures err { OnErr result (IsListedAlike by_lock.old.entries by_lock.new.entries) }
{
    match by_lock.get_mut(&name) {
        Some(refs) => note(refs, reference),
        None => list_first(by_lock, name, reference),
    }
}

/// Lists an output under its lock. A refusal for memory changes nothing.
pub(crate) fn list(
    by_lock: &mut ByLock,
    reference: OutputRef,
    output: &Output,
) -> Result<(), Memory>
    ensures ok { OnOk result (ListsMore (name_in output.now.lock) reference by_lock.old.entries by_lock.new.entries) }
    ensures err { OnErr result (IsListedAlike by_lock.old.entries by_lock.new.entries) }
{
    match name_of(&output.lock)? {
        Some(name) => list_under(by_lock, name, reference),
        None => Ok(()),
    }
}

// ---- listed no more

// Takes a reference out of those under a name, and answers whether it was the last.
fn take_off(by_lock: &mut ByLock, name: &LockName, reference: &OutputRef) -> bool
    ensures none { result ≡ true → refs_under by_lock.new.entries name.now ≡ [] }
    ensures less { ListsLess (Some name.now) reference.now by_lock.old.entries by_lock.new.entries }
{
    match by_lock.get_mut(name) {
        Some(refs) => {
            refs.swap_remove(reference);
            refs.is_empty()
        }
        None => false,
    }
}

// A name with no references goes, so that there are no more names than unspent outputs.
fn unlist_under(by_lock: &mut ByLock, name: &LockName, reference: &OutputRef)
    ensures { ListsLess (Some name.now) reference.now by_lock.old.entries by_lock.new.entries }
{
    if take_off(by_lock, name, reference) {
        by_lock.swap_remove(name);
    }
}

/// Lists an output no more. Each other reference stays. Takes no memory.
pub(crate) fn unlist(by_lock: &mut ByLock, reference: &OutputRef, output: Option<Output>)
    ensures { ListsLess (name_under output) reference.now by_lock.old.entries by_lock.new.entries }
{
    let Some(output) = output else {
        return;
    };
    if let Some(name) = into_name(output) {
        unlist_under(by_lock, &name, reference);
    }
}
