//! How a state starts.
ghost use Rattle.std.specs.Prelude.{◌≡◌, IfOk, Err, if◌then◌else◌};
ghost use Rattle.std.specs.Option.{MatchOption};
ghost use Rattle.std.specs.Result.{IsOkUnless};
ghost use Rattle.std.specs.List.{list_all};
ghost use Rattle.names.specs.Collections.Repeats.{has_key, has_repeat};
ghost use Rattle.names.specs.Orders.{account_cmp};
ghost use Rattle.states.specs.Start.{is_positive, entry_of, entries_of, start_fault, start_of};

use crate::fault::StateFault;
use crate::state::State;
use names::collections::{Entries, Memory, TryClone};
use names::{Account, Party, Token};
use std::alloc::Global;

impl State {
    /// The state with these accounts, no choices and no bound values: amounts in the token's smallest
    /// unit, the minimum time in POSIX milliseconds. Takes n log n steps. Of several faults the lowest
    /// answers: NotPositive where an amount is 0 or less, Repeated where an account is given twice,
    /// Memory.
    pub fn start(
        alloc: Global,
        accounts: &[(Party, Token, i128)],
        min_time: i64,
    ) -> Result<State, StateFault>
        ensures fault { MatchOption (start_fault accounts.now) (IsOkUnless result StateFault.Memory) (λ fault. result ≡ Err fault) }
        ensures value { IfOk result (λ state. state ≡ start_of accounts.now min_time) }
    {
        if !all_positive(accounts) {
            return Err(StateFault::NotPositive);
        }
        let Ok(entries) = entries_of(alloc, accounts) else {
            return Err(refused(accounts));
        };
        let Some(accounts) = Entries::from_vec(entries) else {
            return Err(StateFault::Repeated);
        };
        Ok(State::from_entries(accounts, Entries::new(alloc), Entries::new(alloc), min_time))
    }
}

// The fault where memory was refused: an account that is given twice comes first.
fn refused(accounts: &[(Party, Token, i128)]) -> StateFault
    ensures { result ≡ (if has_repeat account_cmp (entries_of accounts.now) then StateFault.Repeated else StateFault.Memory) }
{
    if repeats(accounts) {
        StateFault::Repeated
    } else {
        StateFault::Memory
    }
}

fn all_positive(accounts: &[(Party, Token, i128)]) -> bool
    ensures { result ≡ list_all is_positive (entries_of accounts.now) }
{
    for row in accounts {
        if row.2 <= 0 {
            return false;
        }
    }
    true
}

// The accounts as the entries of a map, in the order given.
fn entries_of(
    alloc: Global,
    accounts: &[(Party, Token, i128)],
) -> Result<Vec<(Account, i128)>, Memory>
    ensures { IfOk result (λ entries. entries.items ≡ entries_of accounts.now) }
{
    let mut entries = Vec::with_capacity(alloc, accounts.len())?;
    for row in accounts {
        entries.push(entry_of(row)?)?;
    }
    Ok(entries)
}

fn entry_of(row: &(Party, Token, i128)) -> Result<(Account, i128), Memory>
    ensures { IfOk result (λ entry. entry ≡ entry_of row.now) }
{
    let owner = row.0.try_clone()?;
    let token = row.1.try_clone()?;
    Ok((Account { owner, token }, row.2))
}

// Whether an account is given twice: slow, but without memory.
fn repeats(accounts: &[(Party, Token, i128)]) -> bool
    ensures { result ≡ has_repeat account_cmp (entries_of accounts.now) }
{
    for at in 0..accounts.len() {
        let (owner, token, _) = &accounts[at];
        if is_among(owner, token, &accounts[at + 1..]) {
            return true;
        }
    }
    false
}

fn is_among(owner: &Party, token: &Token, accounts: &[(Party, Token, i128)]) -> bool
    ensures { result ≡ has_key account_cmp (record { owner = owner.now; token = token.now }) (entries_of accounts.now) }
{
    for row in accounts {
        if owner.cmp(&row.0).then(token.cmp(&row.1)).is_eq() {
            return true;
        }
    }
    false
}
