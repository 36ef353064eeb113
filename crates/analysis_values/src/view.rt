//! A state, an interval and what was paid, in expressions.
ghost use Rattle.std.specs.Prelude.{◌≡◌, ◌∷◌, pos, is_some, IfOk, OnOk};
ghost use Rattle.std.specs.Option.{unwrap_or};
ghost use Rattle.std.specs.FinMap.Entries.{find};
ghost use Rattle.contract.specs.Names.Orders.{choice_id_cmp, bytes_cmp};
ghost use Rattle.semantics.specs.Reduction.{account_of};
ghost use Rattle.linear.specs.Linear.{number};
ghost use Rattle.analysis_values.specs.Known.{held};

use crate::lookup::{AccountOf, copied_entries, copied_times, found, has, or_zero, put_time};
use contract::{Account, ChoiceId, Memory, Party, Text, Token, TryClone};
use linear::Linear;
use std::alloc::Global;
use std::marker::Model;

/// A state, the interval of its transaction, and what was paid, in expressions over symbols. The entry that was set
/// last stands first, and of two entries of a key the first counts.
pub(crate) struct View {
    pub(crate) accounts: Vec<(Account, Linear)>,
    pub(crate) choices: Vec<(ChoiceId, Linear)>,
    pub(crate) bound: Vec<(Text, Linear)>,
    pub(crate) paid: Vec<(Account, Linear)>,
    pub(crate) start: Linear,
    pub(crate) end: Linear,
    pub(crate) times: Vec<usize>,
}

// Dropped once.
impl Drop for View {
    fn drop(self) {
        let View {
            accounts: _,
            choices: _,
            bound: _,
            paid: _,
            start: _,
            end: _,
            times: _,
        } = self;
    }
}

impl Model for View {
    ghost use Rattle.analysis_values.specs.Known.{View as Seen};

    ghost Value = { Seen };

    ghost view = { λ a. record { accounts = a.accounts.items; choices = a.choices.items; bound = a.bound.items; paid = a.paid.items; start = a.start; end = a.end; times = a.times.items } };
}

impl TryClone for View {
    fn try_clone(&self) -> Result<View, Memory> {
        let alloc = *self.times.allocator();
        let accounts = copied_entries(alloc, &self.accounts)?;
        let choices = copied_entries(alloc, &self.choices)?;
        let bound = copied_entries(alloc, &self.bound)?;
        let paid = copied_entries(alloc, &self.paid)?;
        let start = self.start.try_clone()?;
        let end = self.end.try_clone()?;
        let times = copied_times(alloc, &self.times)?;
        Ok(View {
            accounts,
            choices,
            bound,
            paid,
            start,
            end,
            times,
        })
    }
}

impl View {
    // Where it takes memory from.
    pub(crate) fn memory(&self) -> Global {
        *self.times.allocator()
    }

    /// A number, as an expression.
    pub(crate) fn number(&self, value: i128) -> Linear
        ensures { result ≡ number value }
    {
        Linear::number(self.memory(), value)
    }

    /// The start of the interval.
    pub(crate) fn start(&self) -> &Linear
        ensures { result.now ≡ self.now.start }
    {
        &self.start
    }

    /// The end of the interval.
    pub(crate) fn end(&self) -> &Linear
        ensures { result.now ≡ self.now.end }
    {
        &self.end
    }

    /// The symbols that are times.
    pub(crate) fn times(&self) -> &[usize]
        ensures { result.now ≡ self.now.times }
    {
        &self.times
    }

    /// What the account of a party holds of a token.
    pub(crate) fn held(&self, owner: &Party, token: &Token) -> Result<Linear, Memory>
        ensures { IfOk result (λ e. e ≡ held self.now.accounts (account_of owner.now token.now)) }
    {
        let entry = found(&self.accounts, &AccountOf { owner, token })?;
        Ok(or_zero(self.memory(), entry))
    }

    /// The number that was chosen, if one was.
    pub(crate) fn choice(&self, id: &ChoiceId) -> Result<Option<Linear>, Memory>
        ensures { IfOk result (λ o. o ≡ find choice_id_cmp id.now self.now.choices) }
    {
        let entry = found(&self.choices, id)?;
        Ok(entry)
    }

    /// The number that was chosen: 0 where none was.
    pub(crate) fn chosen(&self, id: &ChoiceId) -> Result<Linear, Memory>
        ensures { IfOk result (λ e. e ≡ unwrap_or (find choice_id_cmp id.now self.now.choices) (number (pos 0))) }
    {
        let entry = self.choice(id)?;
        Ok(or_zero(self.memory(), entry))
    }

    /// Whether a number was chosen.
    pub(crate) fn has_choice(&self, id: &ChoiceId) -> bool
        ensures { result ≡ is_some (find choice_id_cmp id.now self.now.choices) }
    {
        has(&self.choices, id)
    }

    /// The value that is bound to a name, if one is.
    pub(crate) fn bound(&self, name: &Text) -> Result<Option<Linear>, Memory>
        ensures { IfOk result (λ o. o ≡ find bytes_cmp name.now self.now.bound) }
    {
        let entry = found(&self.bound, name)?;
        Ok(entry)
    }

    /// The value that is bound to a name: 0 where none is.
    pub(crate) fn bound_to(&self, name: &Text) -> Result<Linear, Memory>
        ensures { IfOk result (λ e. e ≡ unwrap_or (find bytes_cmp name.now self.now.bound) (number (pos 0))) }
    {
        let entry = self.bound(name)?;
        Ok(or_zero(self.memory(), entry))
    }

    /// Says that a symbol is a time.
    pub(crate) fn put_time(&mut self, symbol: usize) -> Result<(), Memory>
        ensures { OnOk result (self.new ≡ record self.old { times = symbol ∷ self.old.times }) }
    {
        put_time(&mut self.times, symbol)
    }
}
