//! States.
ghost use Rattle.std.specs.Prelude.{◌≡◌, ℤ, pos, ◌≤ℤ◌, IsSome, IsOk, OnOk, OnErr, slice_get};
ghost use Rattle.std.specs.Option.{option_copied};
ghost use Rattle.std.specs.FinMap as map;
ghost use Rattle.states.specs.States.{of_entries, money_of, with_money, AllPositive};

use names::collections::{Entries, Memory, Probe, Text, TryClone};
use names::{Account, ChoiceId, Party, Token};
use std::alloc::Global;
use std::cmp::Ordering;
use std::marker::Model;

// An account, by its owner and its token.
#[derive(Clone, Copy)]
struct AccountOf<'a> {
    owner: &'a Party,
    token: &'a Token,
}

impl Probe<Account> for AccountOf<'_> {
    ghost sought = { λ a. record { owner = a.owner.now; token = a.token.now } };

    fn order(&self, other: &Account) -> Ordering {
        self.owner
            .cmp(&other.owner)
            .then_with(|| self.token.cmp(&other.token))
    }

    fn to_key(&self) -> Result<Account, Memory> {
        Ok(Account {
            owner: self.owner.try_clone()?,
            token: self.token.try_clone()?,
        })
    }
}

/// The state of a contract (Marlowe specification version 3, "State and environment"): what each
/// account holds, above 0 and in the token's smallest unit; the numbers that were chosen; the values
/// that are bound to names; and the minimum time, in POSIX milliseconds.
#[derive(Drop)]
pub struct State {
    accounts: Entries<Account, i128>,
    choices: Entries<ChoiceId, i128>,
    bound_values: Entries<Text, i128>,
    min_time: i64,
}

impl Model for State {
    ghost use Rattle.std.specs.FinMap.{from_sorted};
    ghost use Rattle.states.specs.States.{StateMaps, AllPositive};
    ghost use Rattle.states.specs.StateCode.{maps_code};

    ghost Value = { StateMaps };

    ghost coded = { maps_code };

    ghost view = { λ a. record { accounts = from_sorted a.accounts; choices = from_sorted a.choices; bound_values = from_sorted a.bound_values; min_time = a.min_time } };

    ghost invariant = { λ a. AllPositive a.accounts };
}

impl TryClone for State {
    fn try_clone(&self) -> Result<State, Memory> {
        let accounts = self.accounts.try_clone()?;
        let choices = self.choices.try_clone()?;
        let bound_values = self.bound_values.try_clone()?;
        Ok(State {
            accounts,
            choices,
            bound_values,
            min_time: self.min_time,
        })
    }
}

impl State {
    /// A state without entries.
    pub fn new(alloc: Global, min_time: i64) -> Self
        ensures { result ≡ record { accounts = map.empty; choices = map.empty; bound_values = map.empty; min_time = min_time } }
    {
        State {
            accounts: Entries::new(alloc),
            choices: Entries::new(alloc),
            bound_values: Entries::new(alloc),
            min_time,
        }
    }

    /// The state with these entries, the accounts all above 0; takes no memory.
    pub fn from_entries(
        accounts: Entries<Account, i128>,
        choices: Entries<ChoiceId, i128>,
        bound_values: Entries<Text, i128>,
        min_time: i64,
    ) -> State
        requires { AllPositive accounts }
        ensures { result ≡ of_entries accounts choices bound_values min_time }
    {
        State {
            accounts,
            choices,
            bound_values,
            min_time,
        }
    }

    /// What the account of an owner and a token holds: 0 where it has no entry.
    pub fn money(&self, owner: &Party, token: &Token) -> i128
        ensures held { result ≡ money_of self.now (record { owner = owner.now; token = token.now }) }
        ensures positive { pos 0 ≤ℤ result }
    {
        self.accounts.get(&AccountOf { owner, token }).unwrap_or(0)
    }

    /// The number that was chosen, if one was.
    pub fn choice(&self, id: &ChoiceId) -> Option<i128>
        ensures { result ≡ map.get self.now.choices id.now }
    {
        self.choices.get(id)
    }

    /// The value that is bound to a name, if one is.
    pub fn bound(&self, name: &Text) -> Option<i128>
        ensures { result ≡ map.get self.now.bound_values name.now }
    {
        self.bound_values.get(name)
    }

    /// The minimum time, in POSIX milliseconds.
    pub fn min_time(&self) -> i64
        ensures { result ≡ self.now.min_time }
    {
        self.min_time
    }

    /// What the accounts hold, by owner and then token.
    pub fn accounts(&self) -> &[(Account, i128)]
        ensures all { result.now ≡ map.entries self.now.accounts }
        ensures positive { AllPositive (map.entries self.now.accounts) }
    {
        self.accounts.as_slice()
    }

    /// The first account in order and what it holds, if there is an account.
    pub fn first_account(&self) -> Option<&(Account, i128)>
        ensures { option_copied result ≡ slice_get (map.entries self.now.accounts) 0 }
    {
        self.accounts().first()
    }

    /// Takes all accounts out, by owner and then token; takes no memory.
    pub fn take_accounts(&mut self) -> Vec<(Account, i128)>
        ensures taken { result.items ≡ map.entries self.old.accounts }
        ensures left { self.new ≡ record self.old { accounts = map.empty } }
    {
        self.accounts.take()
    }

    /// The numbers that were chosen, by name and then owner.
    pub fn choices(&self) -> &[(ChoiceId, i128)]
        ensures { result.now ≡ map.entries self.now.choices }
    {
        self.choices.as_slice()
    }

    /// The values that are bound, by name.
    pub fn bound_values(&self) -> &[(Text, i128)]
        ensures { result.now ≡ map.entries self.now.bound_values }
    {
        self.bound_values.as_slice()
    }

    /// Sets what an account holds, where 0 removes its entry. Memory is taken only for a new entry,
    /// and nothing is changed where it is refused.
    pub fn set_money(&mut self, owner: &Party, token: &Token, amount: i128) -> Result<(), Memory>
        requires { pos 0 ≤ℤ amount }
        ensures ok { OnOk result (self.new ≡ with_money self.old (record { owner = owner.now; token = token.now }) amount) }
        ensures err { OnErr result (self.new ≡ self.old) }
        ensures zero { amount ≡ pos 0 → IsOk result }
        ensures known { IsSome (map.get self.old.accounts (record { owner = owner.now; token = token.now })) → IsOk result }
    {
        let account = AccountOf { owner, token };
        if amount == 0 {
            self.accounts.remove(&account);
            return Ok(());
        }
        self.accounts.set(&account, amount)?;
        Ok(())
    }

    /// Records the number of a choice. Memory is taken only for a new choice, and nothing is changed
    /// where it is refused.
    pub fn set_choice(&mut self, id: &ChoiceId, number: i128) -> Result<(), Memory>
        ensures ok { OnOk result (self.new ≡ record self.old { choices = map.insert self.old.choices id.now number }) }
        ensures err { OnErr result (self.new ≡ self.old) }
        ensures known { IsSome (map.get self.old.choices id.now) → IsOk result }
    {
        self.choices.set(id, number)
    }

    /// Binds a value to a name. Memory is taken only for a new name, and nothing is changed where it
    /// is refused.
    pub fn set_bound(&mut self, name: &Text, value: i128) -> Result<(), Memory>
        ensures ok { OnOk result (self.new ≡ record self.old { bound_values = map.insert self.old.bound_values name.now value }) }
        ensures err { OnErr result (self.new ≡ self.old) }
        ensures known { IsSome (map.get self.old.bound_values name.now) → IsOk result }
    {
        self.bound_values.set(name, value)
    }

    /// Sets the minimum time, in POSIX milliseconds.
    pub fn set_min_time(&mut self, min_time: i64)
        ensures { self.new ≡ record self.old { min_time = min_time } }
    {
        self.min_time = min_time;
    }
}
