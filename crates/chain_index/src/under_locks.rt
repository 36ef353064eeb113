//! Unspent outputs under the locks that are asked for.
ghost use Rattle.std.specs.Prelude.{◌≡◌, ◌++◌, ◌∷◌, [], ◌||◌, ℕ, IfOk, OnOk};
ghost use Rattle.std.specs.Ordering.{nat_cmp};
ghost use Rattle.std.specs.BTreeSet.{IsOrdered};
ghost use Rattle.ledger_spec.specs.Views.{is_key_of, is_payout_of};
ghost use Rattle.chain_index.specs.UnderLocksSupport.{under, is_shown, passes_at, has_place, rows_at};

use crate::lock_name::LockName;
use crate::outputs::Outputs;
use indexmap::IndexSet;
use ledger_spec::{Items, Memory, OutputRef, PayoutLock, Text, TryClone, Unspent};
use std::alloc::Global;
use std::collections::BTreeSet;

// The outputs at places, which ascend.
fn show_all(
    alloc: Global,
    outputs: &Outputs,
    places: BTreeSet<usize>,
) -> Result<Items<Unspent>, Memory>
    ensures rows { IfOk result (λ shown. shown ≡ rows_at outputs.now places.keys) }
    ensures ordered { IsOrdered nat_cmp places }
{
    // touch: they ascend
    let _len = places.len();
    let mut left = places;
    let mut shown = Items::new(alloc);
    while let Some(place) = left.pop_first() {
        outputs.show(place, &mut shown)?;
    }
    Ok(shown)
}

// ---- keys

fn key_places(
    alloc: Global,
    outputs: &Outputs,
    leaving: &IndexSet<OutputRef>,
    keys: &[Text],
) -> Result<BTreeSet<usize>, Memory>
    ensures { IfOk result (λ places. (i : ℕ) → has_place places.keys i
        ≡ passes_at (is_shown (is_key_of keys.now) leaving.now.keys) outputs.now i) }
{
    let mut places = BTreeSet::new(alloc);
    for key in keys {
        let name = LockName::Address(key.try_clone()?);
        outputs.collect(leaving, &name, &mut places)?;
    }
    Ok(places)
}

/// The unspent outputs under the keys of these addresses, in order.
pub(crate) fn keys_shown(
    alloc: Global,
    outputs: &Outputs,
    leaving: &IndexSet<OutputRef>,
    keys: &[Text],
) -> Result<Items<Unspent>, Memory>
    ensures { IfOk result (λ shown. shown ≡ under (is_key_of keys.now) leaving.now.keys outputs.now) }
{
    let places = key_places(alloc, outputs, leaving, keys)?;
    let shown = show_all(alloc, outputs, places)?;
    Ok(shown)
}

// ---- payouts

fn payout_places(
    alloc: Global,
    outputs: &Outputs,
    leaving: &IndexSet<OutputRef>,
    payouts: &[PayoutLock],
) -> Result<BTreeSet<usize>, Memory>
    ensures { IfOk result (λ places. (i : ℕ) → has_place places.keys i
        ≡ passes_at (is_shown (is_payout_of payouts.now) leaving.now.keys) outputs.now i) }
{
    let mut places = BTreeSet::new(alloc);
    for payout in payouts {
        let currency = payout.currency.try_clone()?;
        let role = payout.role.try_clone()?;
        outputs.collect(leaving, &LockName::Role { currency, role }, &mut places)?;
    }
    Ok(places)
}

/// The unspent outputs under these payout locks, in order.
pub(crate) fn payouts_shown(
    alloc: Global,
    outputs: &Outputs,
    leaving: &IndexSet<OutputRef>,
    payouts: &[PayoutLock],
) -> Result<Items<Unspent>, Memory>
    ensures { IfOk result (λ shown. shown ≡ under (is_payout_of payouts.now) leaving.now.keys outputs.now) }
{
    let places = payout_places(alloc, outputs, leaving, payouts)?;
    let shown = show_all(alloc, outputs, places)?;
    Ok(shown)
}
