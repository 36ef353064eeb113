//! Entries by their keys.
ghost use Rattle.std.specs.Prelude.{◌≡◌, ◌<◌, ◌∷◌, ◌++◌, pos, true, length, IfOk, IfSome, OnOk, is_some};
ghost use Rattle.std.specs.Option.{unwrap_or};
ghost use Rattle.std.specs.Ordering.{eq_by_cmp};
ghost use Rattle.std.specs.FinMap.Entries.{find};
ghost use Rattle.contract.specs.Names.declared.account.Account.{Account as AnAccount};
ghost use Rattle.semantics.specs.Reduction.{account_of};
ghost use Rattle.linear.specs.Linear.{number};
ghost use Rattle.analysis_values.specs.Entries.{in_numbers, keys_of, other_keys};
ghost use Rattle.analysis_values.specs.Replaced.{AreAsFound, IsPlaceOf};

use contract::collections::{Items, Memory, Probe, TryClone};
use contract::{Account, Party, Token};
use linear::Linear;
use std::alloc::Global;
use std::cmp::Ordering;

/// An account, by its owner and its token.
#[derive(Clone, Copy)]
pub(crate) struct AccountOf<'a> {
    pub(crate) owner: &'a Party,
    pub(crate) token: &'a Token,
}

impl Probe<Account> for AccountOf<'_> {
    ghost sought = { λ a. record { owner = a.owner.now; token = a.token.now } };

    fn order(&self, other: &Account) -> Ordering {
        self.owner
            .cmp(&other.owner)
            .then_with(|| self.token.cmp(&other.token))
    }

    fn to_key(&self) -> Result<Account, Memory> {
        Ok(Account {
            owner: self.owner.try_clone()?,
            token: self.token.try_clone()?,
        })
    }
}

// Whether a key is another.
fn is_key<K: Ord, Q: Probe<K>>(key: &Q, other: &K) -> bool
    ensures { result ≡ eq_by_cmp K.cmp (Q.sought key.now) other.now }
{
    key.order(other).is_eq()
}

/// What the first entry of a key has, if there is one.
pub(crate) fn found<K: Ord, Q: Probe<K>>(
    entries: &[(K, Linear)],
    key: &Q,
) -> Result<Option<Linear>, Memory>
    ensures { IfOk result (λ o. o ≡ find K.cmp (Q.sought key.now) entries.now) }
{
    for entry in entries {
        let same = is_key(key, &entry.0);
        if same {
            let value = entry.1.try_clone()?;
            return Ok(Some(value));
        }
    }
    Ok(None)
}

/// What an entry has, or 0.
pub(crate) fn or_zero(alloc: Global, entry: Option<Linear>) -> Linear
    ensures { result ≡ unwrap_or entry (number (pos 0)) }
{
    match entry {
        Some(value) => value,
        None => Linear::number(alloc, 0),
    }
}

/// Whether a key has an entry.
pub(crate) fn has<K: Ord, Q: Probe<K>>(entries: &[(K, Linear)], key: &Q) -> bool
    ensures { result ≡ is_some (find K.cmp (Q.sought key.now) entries.now) }
{
    for entry in entries {
        let same = is_key(key, &entry.0);
        if same {
            return true;
        }
    }
    false
}

/// Puts an entry before the others.
pub(crate) fn put_first<K: Ord + Drop, Q: Probe<K>>(
    entries: &mut Vec<(K, Linear)>,
    key: &Q,
    value: Linear,
) -> Result<(), Memory>
    ensures { OnOk result (entries.new.items ≡ (Q.sought key.now, value) ∷ entries.old.items) }
{
    let own = key.to_key()?;
    entries.insert(0, (own, value))?;
    Ok(())
}

/// Puts what an account has before the other entries, in place of what it had.
pub(crate) fn put_account(
    entries: &mut Vec<(Account, Linear)>,
    owner: &Party,
    token: &Token,
    value: Linear,
) -> Result<(), Memory>
    ensures { OnOk result (AreAsFound ((account_of owner.now token.now, value) ∷ entries.old.items) entries.new.items) }
{
    match place_of(entries, owner, token) {
        Some(at) => put_again(entries, at, value),
        None => put_first(entries, &AccountOf { owner, token }, value),
    }
}

// The place of an account's entry, if there is one.
fn place_of(entries: &[(Account, Linear)], owner: &Party, token: &Token) -> Option<usize>
    ensures { IfSome result (IsPlaceOf entries.now (account_of owner.now token.now)) }
{
    for at in 0..entries.len() {
        let here = is_at(entries, at, owner, token);
        if here {
            return Some(at);
        }
    }
    None
}

// Whether it stands at a place.
fn is_at(entries: &[(Account, Linear)], at: usize, owner: &Party, token: &Token) -> bool
    requires { at < length entries.now }
    ensures { result ≡ true → IsPlaceOf entries.now (account_of owner.now token.now) at }
{
    let entry = &entries[at];
    is_key(&AccountOf { owner, token }, &entry.0)
}

// Puts another value, first, for the account whose entry stands at a place.
fn put_again(entries: &mut Vec<(Account, Linear)>, at: usize, value: Linear) -> Result<(), Memory>
    requires { at < length entries.old.items }
    ensures { OnOk result ((a : AnAccount) → IsPlaceOf entries.old.items a at → AreAsFound ((a, value) ∷ entries.old.items) entries.new.items) }
{
    let (account, _) = entries.remove(at);
    entries.insert(0, (account, value))?;
    Ok(())
}

/// The same entries once more.
pub(crate) fn copied_entries<K: TryClone + Drop>(
    alloc: Global,
    entries: &[(K, Linear)],
) -> Result<Vec<(K, Linear)>, Memory>
    ensures { IfOk result (λ copies. copies.items ≡ entries.now) }
{
    let mut copies = Vec::with_capacity(alloc, entries.len())?;
    for (key, value) in entries {
        copies.push((key.try_clone()?, value.try_clone()?))?;
    }
    Ok(copies)
}

/// Puts the keys of entries behind others.
pub(crate) fn put_keys<K: TryClone + Drop>(
    keys: &mut Items<K>,
    entries: &[(K, Linear)],
) -> Result<(), Memory>
    ensures { OnOk result (keys.new ≡ keys.old ++ keys_of entries.now) }
{
    for (key, _) in entries {
        keys.push(key.try_clone()?)?;
    }
    Ok(())
}

/// .. of accounts, but for those that have one of these others.
pub(crate) fn put_other_keys(
    keys: &mut Items<Account>,
    others: &[(Account, Linear)],
    entries: &[(Account, Linear)],
) -> Result<(), Memory>
    ensures { OnOk result (keys.new ≡ keys.old ++ other_keys others.now entries.now) }
{
    for (key, _) in entries {
        let there = has(others, key);
        if !there {
            keys.push(key.try_clone()?)?;
        }
    }
    Ok(())
}

/// The same times once more.
pub(crate) fn copied_times(alloc: Global, times: &[usize]) -> Result<Vec<usize>, Memory>
    ensures { IfOk result (λ copies. copies.items ≡ times.now) }
{
    let copies = times.to_vec(alloc)?;
    Ok(copies)
}

/// Puts a symbol before the other times.
pub(crate) fn put_time(times: &mut Vec<usize>, symbol: usize) -> Result<(), Memory>
    ensures { OnOk result (times.new.items ≡ symbol ∷ times.old.items) }
{
    times.insert(0, symbol)?;
    Ok(())
}

/// Entries with their numbers as expressions.
pub(crate) fn in_expressions<K: TryClone + Drop>(
    alloc: Global,
    entries: &[(K, i128)],
) -> Result<Vec<(K, Linear)>, Memory>
    ensures { IfOk result (λ out. out.items ≡ in_numbers entries.now) }
{
    let mut out = Vec::with_capacity(alloc, entries.len())?;
    for (key, value) in entries {
        let own = key.try_clone()?;
        let number = Linear::number(alloc, *value);
        out.push((own, number))?;
    }
    Ok(out)
}
