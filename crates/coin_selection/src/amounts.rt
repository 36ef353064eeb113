//! Amounts of tokens that are wanted.
ghost use Rattle.std.specs.Prelude.{◌≡◌, ◌++◌, pos, ◌<ℤ◌, ◌≤ℤ◌, ◌^◌, map, IfOk, OnOk, OnErr};
ghost use Rattle.builder_spec.specs.Bundle.Bundles.{amount_of};
ghost use Rattle.contract.specs.States.States.{AllPositive};
ghost use Rattle.builder_spec.specs.ContractBytes.Writing.{AppendsFront};
ghost use Rattle.builder_spec.specs.Starts.{accounts_of};
ghost use Rattle.builder_spec.specs.Steps.{deposit_of, deposits};
ghost use Rattle.coin_selection.specs.MissingSupport.{Adds};

use crate::missing::Missing;
use contract::{Account, Input, Memory, State, Token};
use std::alloc::Global;
use std::marker::Model;

/// An amount of a token, above 0. Clauses see the pair of token and amount.
#[derive(Drop)]
pub struct Amount<'a> {
    token: &'a Token,
    amount: &'a i128,
}

impl<'a> Model for Amount<'a> {
    ghost use Rattle.std.specs.Prelude.{ℤ, pos, ◌<ℤ◌};
    ghost use Rattle.contract.specs.Names.declared.token.Token.{Token};

    ghost Value = { Token × ℤ };

    ghost view = { λ a. (a.token.now, a.amount.now) };

    ghost invariant = { λ a. pos 0 <ℤ a.amount.now };
}

impl<'a> Amount<'a> {
    /// So much more of its token is needed.
    pub(crate) fn add_to(&self, missing: &mut Missing) -> Result<(), Memory>
        requires { amount_of missing.old self.now.0 ≤ℤ pos (2 ^ 199) }
        ensures range { (pos 0 <ℤ self.now.1) × (self.now.1 ≤ℤ pos (2 ^ 127)) }
        ensures added { OnOk result (Adds missing.old missing.new self.now.0 self.now.1) }
    {
        missing.add(self.token, *self.amount)
    }
}

// What an input deposits, where that is above 0.
fn deposit_of(input: &Input) -> Option<Amount<'_>>
    ensures { result ≡ deposit_of input.now }
{
    match input {
        Input::Deposit(_, _, token, amount) => {
            if 0 < *amount {
                Some(Amount { token, amount })
            } else {
                None
            }
        }
        Input::Choice(_, _) => None,
        Input::Notify => None,
    }
}

/// Puts what inputs deposit, in order, behind others. On a refusal the first of it may stand there.
pub fn put_deposits<'a>(amounts: &mut Vec<Amount<'a>>, inputs: &'a [Input]) -> Result<(), Memory>
    ensures deposits { OnOk result (amounts.new.items ≡ amounts.old.items ++ deposits inputs.now) }
    ensures err { OnErr result (AppendsFront (deposits inputs.now) amounts.old.items amounts.new.items) }
{
    for input in inputs {
        if let Some(amount) = deposit_of(input) {
            amounts.push(amount)?;
        }
    }
    Ok(())
}

// What each of these accounts holds, in order.
fn amounts_of(alloc: Global, accounts: &[(Account, i128)]) -> Result<Vec<Amount<'_>>, Memory>
    requires { AllPositive accounts.now }
    ensures { IfOk result (λ amounts. amounts.items ≡ map (λ e. (e.0.token, e.1)) accounts.now) }
{
    let mut amounts = Vec::new(alloc);
    for account in accounts {
        let token = &account.0.token;
        let amount = &account.1;
        amounts.push(Amount { token, amount })?;
    }
    Ok(amounts)
}

/// What the accounts of a state hold, in order.
pub fn accounts_of(alloc: Global, state: &State) -> Result<Vec<Amount<'_>>, Memory>
    ensures { IfOk result (λ amounts. amounts.items ≡ accounts_of state.now) }
{
    amounts_of(alloc, state.accounts())
}
