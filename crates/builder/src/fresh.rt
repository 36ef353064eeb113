//! The state with which a contract starts.
ghost use Rattle.std.specs.Prelude.{◌≡◌, IfOk, OnOk};
ghost use Rattle.std.proofs.Math.Dec.{T};
ghost use Rattle.std.specs.FinMap.{is_sorted, put};
ghost use Rattle.contract.specs.Names.Orders.{account_cmp};
ghost use Rattle.builder_spec.specs.Starts.{fresh_state};

use contract::{Account, Entries, Memory, State};
use std::alloc::Global;

fn put_account(
    entries: &mut Entries<Account, i128>,
    account: &(Account, i128),
) -> Result<(), Memory>
    ensures { OnOk result (entries.new ≡ put account_cmp account.now.0 account.now.1 entries.old) }
{
    entries.set(&account.0, account.1)
}

// A map of these entries, which stand in the order of their keys.
fn copy_accounts(
    alloc: Global,
    accounts: &[(Account, i128)],
) -> Result<Entries<Account, i128>, Memory>
    requires { T (is_sorted account_cmp accounts.now) }
    ensures { IfOk result (λ entries. entries ≡ accounts.now) }
{
    let mut entries = Entries::new(alloc);
    for account in accounts {
        put_account(&mut entries, account)?;
    }
    Ok(entries)
}

/// The state with the accounts and the minimum time of another, in which nothing was chosen and nothing is bound.
pub(crate) fn fresh(alloc: Global, state: &State) -> Result<State, Memory>
    ensures { IfOk result (λ copy. copy ≡ fresh_state state.now) }
{
    let accounts = copy_accounts(alloc, state.accounts())?;
    let choices = Entries::new(alloc);
    let bound_values = Entries::new(alloc);
    let min_time = state.min_time();
    Ok(State::from_entries(accounts, choices, bound_values, min_time))
}
