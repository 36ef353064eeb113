//! Walks along entries in the order of their tokens.
ghost use Rattle.std.specs.Prelude.{◌≡◌, ◌≤◌, ◌++◌, [], ◌∷◌, length, take, drop, OnOk};
ghost use Rattle.std.proofs.Math.Dec.{T};
ghost use Rattle.std.specs.FinMap.{is_sorted};
ghost use Rattle.std.specs.Ordering.{is_gt, is_eq};
ghost use Rattle.names.specs.Orders.{token_cmp};
ghost use Rattle.bundle.specs.WalksSupport.{amount_in, AllBefore, StartsFrom, starts_with};

use names::collections::{Memory, TryClone};
use names::{Token, compare_tokens};

/// A token and how much there is of it, in the token's smallest unit.
pub(crate) type Entry = (Token, i128);

fn comes_before(entry: &Entry, token: &Token) -> bool
    ensures { result ≡ is_gt (token_cmp token.now entry.now.0) }
{
    compare_tokens(token, &entry.0).is_gt()
}

fn is_of(entry: &Entry, token: &Token) -> bool
    ensures { result ≡ is_eq (token_cmp token.now entry.now.0) }
{
    compare_tokens(token, &entry.0).is_eq()
}

/// How much an entry has.
pub(crate) fn number_of(entry: &Entry) -> i128
    ensures { result ≡ entry.now.1 }
{
    entry.1
}

/// Where the entries of tokens before this one end, from a place on to which that is known.
pub(crate) fn skip_before(entries: &[Entry], from: usize, token: &Token) -> usize
    requires within { from ≤ length entries.now }
    requires before { AllBefore token.now (take from entries.now) }
    ensures within { result ≤ length entries.now }
    ensures onward { from ≤ result }
    ensures before { AllBefore token.now (take result entries.now) }
    ensures next { StartsFrom token.now (drop result entries.now) }
{
    for at in from..entries.len() {
        if !comes_before(&entries[at], token) {
            return at;
        }
    }
    entries.len()
}

/// Whether the entry at a place is of this token.
pub(crate) fn is_at(entries: &[Entry], at: usize, token: &Token) -> bool
    ensures { result ≡ starts_with token.now (drop at entries.now) }
{
    at < entries.len() && is_of(&entries[at], token)
}

/// How much there is of a token, where the walk has come to its place.
pub(crate) fn amount_at(entries: &[Entry], at: usize, token: &Token) -> i128
    requires sorted { T (is_sorted token_cmp entries.now) }
    requires before { AllBefore token.now (take at entries.now) }
    requires next { StartsFrom token.now (drop at entries.now) }
    ensures { result ≡ amount_in entries.now token.now }
{
    if is_at(entries, at, token) {
        number_of(&entries[at])
    } else {
        0
    }
}

/// Puts a copy of an entry at the end.
pub(crate) fn put_copy(sum: &mut Vec<Entry>, entry: &Entry) -> Result<(), Memory>
    ensures { OnOk result (sum.new.items ≡ sum.old.items ++ entry.now ∷ []) }
{
    sum.push((entry.0.try_clone()?, entry.1))?;
    Ok(())
}

/// Puts copies of entries at the end.
pub(crate) fn copy_all(out: &mut Vec<Entry>, entries: &[Entry]) -> Result<(), Memory>
    ensures { OnOk result (out.new.items ≡ out.old.items ++ entries.now) }
{
    for entry in entries {
        put_copy(out, entry)?;
    }
    Ok(())
}
