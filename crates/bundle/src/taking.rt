//! What is lacking of a bundle, and what is left of one.
ghost use Rattle.std.specs.Prelude.{◌≡◌, ◌≤◌, pos, ◌<ℤ◌, ◌-ℤ◌, ◌≤ℤ◌, int_lt, not, length, take, drop, None};
ghost use Rattle.std.proofs.Math.Dec.{T};
ghost use Rattle.std.specs.Option.{option_copied};
ghost use Rattle.std.specs.Ordering.{int_eq};
ghost use Rattle.std.specs.FinMap.{is_sorted, put, from_sorted};
ghost use Rattle.names.specs.Orders.{token_cmp};
ghost use Rattle.bundle.specs.Bundles.{lacking, first_short, each, minus, AllPositive};
ghost use Rattle.bundle.specs.WalksSupport.{amount_in, without_zeros, AllBefore, AllNatural};

use crate::bundle::Bundle;
use crate::walk::{Entry, amount_at, skip_before};
use names::Token;

/// The least token of which there is less than is wanted.
pub(crate) fn lacking<'a>(held: &Bundle, wanted: &'a Bundle) -> Option<&'a Token>
    ensures { option_copied result ≡ lacking held.now wanted.now }
{
    first_short(held.list(), wanted.list())
}

fn first_short<'a>(held: &[Entry], wanted: &'a [Entry]) -> Option<&'a Token>
    requires sorted { T (is_sorted token_cmp held.now) }
    requires wanted_sorted { T (is_sorted token_cmp wanted.now) }
    ensures { option_copied result ≡ first_short (from_sorted held.now) wanted.now }
{
    let mut at = 0;
    for entry in wanted {
        at = skip_before(held, at, &entry.0);
        if is_short(amount_at(held, at, &entry.0), entry) {
            return Some(&entry.0);
        }
    }
    None
}

fn is_short(amount: i128, wanted: &Entry) -> bool
    ensures { result ≡ int_lt amount wanted.now.1 }
{
    amount < wanted.1
}

/// Takes out what the other has, of which there is as much. Takes no memory.
pub(crate) fn take_all(held: &mut Bundle, less: &Bundle)
    requires { lacking held.old less.now ≡ None }
    ensures { held.new ≡ minus held.old less.now }
{
    reduce_each(held.entries.as_mut_slice(), less.list());
    drop_zeros(&mut held.entries);
}

fn has_some(entry: &Entry) -> bool
    ensures { result ≡ not (int_eq entry.now.1 (pos 0)) }
{
    entry.1 != 0
}

/// Takes out the entries at 0.
pub(crate) fn drop_zeros(entries: &mut Vec<Entry>)
    ensures { entries.new.items ≡ without_zeros entries.old.items }
{
    entries.retain(|entry| has_some(entry));
}

fn reduce_each(entries: &mut [Entry], less: &[Entry])
    requires sorted { T (is_sorted token_cmp entries.old) }
    requires positive { AllPositive entries.old }
    requires less_sorted { T (is_sorted token_cmp less.now) }
    requires less_positive { AllPositive less.now }
    requires covered { first_short (from_sorted entries.old) less.now ≡ None }
    ensures sorted { T (is_sorted token_cmp entries.new) }
    ensures natural { AllNatural entries.new }
    ensures whole { from_sorted (without_zeros entries.new) ≡ each (λ m n. m -ℤ n) (from_sorted entries.old) less.now }
{
    let mut at = 0;
    for entry in less {
        at = reduce(entries, at, entry);
    }
}

// Takes an entry's amount out, of which there is as much, and answers its place.
fn reduce(entries: &mut [Entry], from: usize, less: &Entry) -> usize
    requires within { from ≤ length entries.old }
    requires sorted { T (is_sorted token_cmp entries.old) }
    requires before { AllBefore less.now.0 (take from entries.old) }
    requires positive { pos 0 <ℤ less.now.1 }
    requires held { less.now.1 ≤ℤ amount_in entries.old less.now.0 }
    ensures within { result ≤ length entries.new }
    ensures before { AllBefore less.now.0 (take result entries.new) }
    ensures put { entries.new ≡ put token_cmp less.now.0 (amount_in entries.old less.now.0 -ℤ less.now.1) entries.old }
{
    let at = skip_before(entries, from, &less.0);
    lessen(&mut entries[at], less);
    at
}

fn lessen(held: &mut Entry, less: &Entry)
    requires positive { pos 0 <ℤ less.now.1 }
    requires enough { less.now.1 ≤ℤ held.old.1 }
    ensures { held.new ≡ (held.old.0, held.old.1 -ℤ less.now.1) }
{
    held.1 -= less.1;
}
