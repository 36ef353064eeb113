//! What several hold together.
ghost use Rattle.std.specs.Prelude.{◌≡◌, false, IfOk, IfErr, pos, int_lt, ◌-◌, ◌^◌};
ghost use Rattle.std.specs.List.{list_any};
ghost use Rattle.std.specs.FinMap.{entries};
ghost use Rattle.builder_spec.specs.Bundle.Bundles.{AllPositive, plus};
ghost use Rattle.builder_spec.specs.Holding.{sums, AreBundles};
ghost use Rattle.builder_spec.specs.Causes.{is_much};
ghost use Rattle.coin_selection.specs.Answers.{RefusesMuch};

use builder_spec::{Bundle, BundleFault, Holds};
use contract::{Token, TryClone};
use std::alloc::Global;

/// What it holds is above 0. It does nothing.
pub(crate) fn see<A: Holds>(item: &A)
    ensures { AllPositive (entries (A.held item.now)) }
{
    // touch: its amounts are above 0
    let _ = item.amounts().entries();
}

/// What all of these hold is above 0. It does nothing.
pub fn see_all<A: Holds>(items: &[A])
    ensures { AreBundles A.held items.now }
{
    // touch: of each
    for item in items {
        see(item);
    }
}

fn is_within(entry: &(Token, i128))
    ensures { int_lt (pos (2 ^ 127 - 1)) entry.now.1 ≡ false }
{
    // touch: an amount has this room
    let _amount = entry.1;
}

fn has_room(entries: &[(Token, i128)])
    ensures { list_any (λ e. int_lt (pos (2 ^ 127 - 1)) e.1) entries.now ≡ false }
{
    // touch: of each
    for entry in entries {
        is_within(entry);
    }
}

/// No bundle has more of a token than an amount has room for. It does nothing.
pub fn see_room(bundle: &Bundle)
    ensures { is_much bundle.now ≡ false }
{
    has_room(bundle.entries());
}

// Both together.
fn both(mut left: Bundle, right: &Bundle) -> Result<Bundle, BundleFault>
    ensures ok { IfOk result (λ bundle. bundle ≡ plus left right.now) }
    ensures err { RefusesMuch result (plus left right.now) }
{
    // touch: its amounts are above 0
    let _ = right.entries();
    match left.add(right) {
        Ok(()) => Ok(left),
        Err(fault) => Err(fault),
    }
}

// What it holds.
fn held_copy<A: Holds>(item: &A) -> Result<Bundle, BundleFault>
    ensures ok { IfOk result (λ bundle. bundle ≡ A.held item.now) }
    ensures err { IfErr result (λ fault. fault ≡ BundleFault.Memory) }
{
    match item.amounts().try_clone() {
        Ok(copy) => Ok(copy),
        Err(_) => Err(BundleFault::Memory),
    }
}

/// What an item and others hold together: refused with `TooLarge` only where the sum of a token is above 2^127 - 1,
/// and otherwise only for memory.
pub(crate) fn with<A: Holds>(item: &A, others: &Bundle) -> Result<Bundle, BundleFault>
    ensures ok { IfOk result (λ bundle. bundle ≡ plus (A.held item.now) others.now) }
    ensures err { RefusesMuch result (plus (A.held item.now) others.now) }
{
    match held_copy(item) {
        Ok(bundle) => both(bundle, others),
        Err(fault) => Err(fault),
    }
}

/// What all of these hold together: refused with `TooLarge` only where the sum of a token is above 2^127 - 1, and
/// otherwise only for memory. It adds the sums of both halves, so it takes n log n.
pub fn sum<A: Holds>(alloc: Global, items: &[A]) -> Result<Bundle, BundleFault>
    requires { AreBundles A.held items.now }
    ensures ok { IfOk result (λ bundle. bundle ≡ sums A.held items.now) }
    ensures err { RefusesMuch result (sums A.held items.now) }
{
    match items {
        [] => Ok(Bundle::new(alloc)),
        [item] => held_copy(item),
        _ => {
            let (first, others) = items.split_at(items.len() / 2);
            match sum(alloc, first) {
                Err(fault) => Err(fault),
                Ok(first) => match sum(alloc, others) {
                    Err(fault) => Err(fault),
                    Ok(others) => both(first, &others),
                },
            }
        }
    }
}
