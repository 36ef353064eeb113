//! Sums of two bundles.
ghost use Rattle.std.specs.Prelude.{◌≡◌, ◌≤◌, pos, ◌<ℤ◌, ◌+ℤ◌, ◌≤ℤ◌, ◌++◌, [], ◌∷◌, length, take, drop, false, IfOk, OnOk};
ghost use Rattle.std.proofs.Math.Dec.{T};
ghost use Rattle.std.specs.FinMap.{is_sorted, put, from_sorted};
ghost use Rattle.names.specs.Orders.{token_cmp};
ghost use Rattle.bundle.specs.Bundles.{is_large, any_large, too_large, each, plus, AllPositive};
ghost use Rattle.bundle.specs.WalksSupport.{amount_in, gained, AllBefore, NoneAfter, StartsFrom};

use crate::bundle::Bundle;
use crate::walk::{Entry, amount_at, copy_all, is_at, put_copy, skip_before};
use names::Token;
use names::collections::{Memory, TryClone};

/// Whether the sum of a token lies above 2^127 - 1.
pub(crate) fn is_too_large(held: &Bundle, more: &Bundle) -> bool
    ensures { result ≡ too_large held.now more.now }
{
    any_too_large(held.list(), more.list())
}

fn any_too_large(held: &[Entry], more: &[Entry]) -> bool
    requires sorted { T (is_sorted token_cmp held.now) }
    requires positive { AllPositive held.now }
    requires more_sorted { T (is_sorted token_cmp more.now) }
    ensures { result ≡ any_large (from_sorted held.now) more.now }
{
    let mut at = 0;
    for entry in more {
        at = skip_before(held, at, &entry.0);
        if is_above(amount_at(held, at, &entry.0), entry) {
            return true;
        }
    }
    false
}

fn is_above(amount: i128, more: &Entry) -> bool
    requires { pos 0 ≤ℤ amount }
    ensures { result ≡ is_large amount more.now.1 }
{
    i128::MAX - amount < more.1
}

/// Both together.
pub(crate) fn sum_of(held: &Bundle, more: &Bundle) -> Result<Bundle, Memory>
    requires { too_large held.now more.now ≡ false }
    ensures { IfOk result (λ sum. sum ≡ plus held.now more.now) }
{
    let alloc = *held.entries.allocator();
    let mut sum = Vec::with_capacity(alloc, held.list().len() + more.list().len())?;
    merge(&mut sum, held.list(), more.list())?;
    Ok(Bundle { entries: sum })
}

fn merge(sum: &mut Vec<Entry>, held: &[Entry], more: &[Entry]) -> Result<(), Memory>
    requires empty { sum.old.items ≡ [] }
    requires sorted { T (is_sorted token_cmp held.now) }
    requires positive { AllPositive held.now }
    requires more_sorted { T (is_sorted token_cmp more.now) }
    requires more_positive { AllPositive more.now }
    requires fits { any_large (from_sorted held.now) more.now ≡ false }
    ensures sorted { OnOk result (T (is_sorted token_cmp sum.new.items)) }
    ensures positive { OnOk result (AllPositive sum.new.items) }
    ensures whole { OnOk result (from_sorted sum.new.items ≡ each (λ m n. m +ℤ n) (from_sorted held.now) more.now) }
{
    let mut at = 0;
    for entry in more {
        at = gain(sum, held, at, entry)?;
    }
    copy_all(sum, &held[at..])
}

// Puts what stands before an entry's token and the sum with that entry at the end, and answers what
// is left to put.
fn gain(sum: &mut Vec<Entry>, held: &[Entry], from: usize, entry: &Entry) -> Result<usize, Memory>
    requires within { from ≤ length held.now }
    requires sorted { T (is_sorted token_cmp (sum.old.items ++ drop from held.now)) }
    requires sum_before { AllBefore entry.now.0 sum.old.items }
    requires before { AllBefore entry.now.0 (take from held.now) }
    requires held_positive { AllPositive held.now }
    requires positive { pos 0 <ℤ entry.now.1 }
    requires fits { is_large (amount_in (sum.old.items ++ drop from held.now) entry.now.0) entry.now.1 ≡ false }
    ensures within { IfOk result (λ at. at ≤ length held.now) }
    ensures sum_none_after { OnOk result (NoneAfter entry.now.0 sum.new.items) }
    ensures none_after { IfOk result (λ at. NoneAfter entry.now.0 (take at held.now)) }
    ensures put { IfOk result (λ at. sum.new.items ++ drop at held.now ≡ gained entry.now (sum.old.items ++ drop from held.now)) }
{
    let at = pass(sum, held, from, &entry.0)?;
    if is_at(held, at, &entry.0) {
        put_sum(sum, &held[at], entry)?;
        Ok(at + 1)
    } else {
        put_copy(sum, entry)?;
        Ok(at)
    }
}

// Puts what stands before a token at the end, and answers what is left to put.
fn pass(sum: &mut Vec<Entry>, held: &[Entry], from: usize, token: &Token) -> Result<usize, Memory>
    requires within { from ≤ length held.now }
    requires sum_before { AllBefore token.now sum.old.items }
    requires before { AllBefore token.now (take from held.now) }
    ensures within { IfOk result (λ at. at ≤ length held.now) }
    ensures whole { IfOk result (λ at. sum.new.items ++ drop at held.now ≡ sum.old.items ++ drop from held.now) }
    ensures sum_before { OnOk result (AllBefore token.now sum.new.items) }
    ensures before { IfOk result (λ at. AllBefore token.now (take at held.now)) }
    ensures next { IfOk result (λ at. StartsFrom token.now (drop at held.now)) }
{
    let at = skip_before(held, from, token);
    copy_all(sum, &held[from..at])?;
    Ok(at)
}

fn put_sum(sum: &mut Vec<Entry>, held: &Entry, entry: &Entry) -> Result<(), Memory>
    requires held { pos 0 ≤ℤ held.now.1 }
    requires positive { pos 0 <ℤ entry.now.1 }
    requires fits { is_large held.now.1 entry.now.1 ≡ false }
    ensures { OnOk result (sum.new.items ≡ sum.old.items ++ (entry.now.0, held.now.1 +ℤ entry.now.1) ∷ []) }
{
    let amount = held.1 + entry.1;
    sum.push((entry.0.try_clone()?, amount))?;
    Ok(())
}
