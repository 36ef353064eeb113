//! What is known at a place of a contract.
ghost use Rattle.std.specs.Prelude.{◌≡◌, ◌++◌, true, is_some, IfOk, OnOk};
ghost use Rattle.std.specs.FinMap.Entries.{find};
ghost use Rattle.contract.specs.Names.Orders.{choice_id_cmp, bytes_cmp};
ghost use Rattle.semantics.specs.Reduction.{account_of};
ghost use Rattle.linear.specs.Linear.{number_at};
ghost use Rattle.linear.specs.Bounded.{IsShown, IsFromAll, IsUpToAll, IsRefuted};
ghost use Rattle.symbols.specs.Held.{GivesAny, Learns, Assumes};
ghost use Rattle.symbols.specs.Joined.{Joins};
ghost use Rattle.analysis_values.specs.Known.{held, with_account, with_paid, with_choice, with_bound};
ghost use Rattle.analysis_values.specs.Entries.{known_of_state, keys_of, other_keys};
ghost use Rattle.analysis_values.specs.Replaced.{IsAsKnown};
ghost use Rattle.analysis_values.specs.Answered.{StaysWhereSaid, AddsTime};

use crate::lookup::{
    AccountOf, found, has, in_expressions, or_zero, put_account, put_first, put_keys,
    put_other_keys,
};
use crate::stays::stays;
use crate::view::View;
use contract::{Account, ChoiceId, Items, Memory, Party, State, Text, Token, TryClone};
use linear::Linear;
use std::alloc::Global;
use std::marker::Model;
use symbols::Symbols;

/// What is known at a place of a contract, of whatever run comes there: symbols that stand for whole numbers, and the
/// state, the interval of the transaction and what parties were paid, in expressions over them. Clauses see the
/// definitions' record.
pub struct Known {
    pub(crate) symbols: Symbols,
    pub(crate) view: View,
}

// Dropped once.
impl Drop for Known {
    fn drop(self) {
        let Known {
            symbols: _,
            view: _,
        } = self;
    }
}

impl Model for Known {
    ghost use Rattle.analysis_values.specs.Known.{Known as AllKnown};

    ghost Value = { AllKnown };

    ghost view = { λ a. record { symbols = a.symbols; view = a.view } };
}

impl TryClone for Known {
    fn try_clone(&self) -> Result<Known, Memory> {
        let symbols = self.symbols.try_clone()?;
        let view = self.view.try_clone()?;
        Ok(Known { symbols, view })
    }
}

impl Known {
    /// The entries of a state, which nobody was paid of yet, in an interval of two expressions; none of the symbols is
    /// known to be a time.
    pub fn of_state(
        alloc: Global,
        state: &State,
        symbols: Symbols,
        start: Linear,
        end: Linear,
    ) -> Result<Known, Memory>
        ensures { IfOk result (λ k. k ≡ known_of_state state.now symbols start end) }
    {
        let accounts = in_expressions(alloc, state.accounts())?;
        let choices = in_expressions(alloc, state.choices())?;
        let bound = in_expressions(alloc, state.bound_values())?;
        let view = View {
            accounts,
            choices,
            bound,
            paid: Vec::new(alloc),
            start,
            end,
            times: Vec::new(alloc),
        };
        Ok(Known { symbols, view })
    }

    /// What is known of the symbols.
    pub fn symbols(&self) -> &Symbols
        ensures { result.now ≡ self.now.symbols }
    {
        &self.symbols
    }

    // The state, the interval and what was paid.
    pub(crate) fn view(&self) -> &View
        ensures { result.now ≡ self.now.view }
    {
        &self.view
    }

    // ---- what is held

    /// What the account of a party holds of a token: 0 where it has no entry.
    pub fn held(&self, owner: &Party, token: &Token) -> Result<Linear, Memory>
        ensures { IfOk result (λ e. e ≡ held self.now.view.accounts (account_of owner.now token.now)) }
    {
        self.view.held(owner, token)
    }

    /// What a party was paid of a token.
    pub fn paid(&self, party: &Party, token: &Token) -> Result<Linear, Memory>
        ensures { IfOk result (λ e. e ≡ held self.now.view.paid (account_of party.now token.now)) }
    {
        let entry = found(
            &self.view.paid,
            &AccountOf {
                owner: party,
                token,
            },
        )?;
        Ok(or_zero(self.view.memory(), entry))
    }

    /// The accounts that have an entry, of what is held or of what parties were paid: the others hold 0, and their owners
    /// were paid nothing of their tokens. In no order; one that has an entry of both stands there once.
    pub fn named(&self) -> Result<Items<Account>, Memory>
        ensures { IfOk result (λ ns. ns ≡ keys_of self.now.view.accounts ++ other_keys self.now.view.accounts self.now.view.paid) }
    {
        let mut names = Items::new(self.view.memory());
        put_keys(&mut names, &self.view.accounts)?;
        put_other_keys(&mut names, &self.view.accounts, &self.view.paid)?;
        Ok(names)
    }

    /// The number that was chosen, if one was.
    pub fn choice(&self, id: &ChoiceId) -> Result<Option<Linear>, Memory>
        ensures { IfOk result (λ o. o ≡ find choice_id_cmp id.now self.now.view.choices) }
    {
        self.view.choice(id)
    }

    /// The value that is bound to a name, if one is.
    pub fn bound(&self, name: &Text) -> Result<Option<Linear>, Memory>
        ensures { IfOk result (λ o. o ≡ find bytes_cmp name.now self.now.view.bound) }
    {
        self.view.bound(name)
    }

    /// Whether a value is bound to a name.
    pub fn is_bound(&self, name: &Text) -> bool
        ensures { result ≡ is_some (find bytes_cmp name.now self.now.view.bound) }
    {
        has(&self.view.bound, name)
    }

    /// The start of the interval.
    pub fn start(&self) -> &Linear
        ensures { result.now ≡ self.now.view.start }
    {
        self.view.start()
    }

    /// The end of the interval.
    pub fn end(&self) -> &Linear
        ensures { result.now ≡ self.now.view.end }
    {
        self.view.end()
    }

    // ---- what is set

    /// Sets what the account of a party holds of a token, in place of what it held: each account has one entry, so that a copy
    /// and a look-up cost no more for all that it held before.
    pub fn replace_account(
        &mut self,
        owner: &Party,
        token: &Token,
        amount: Linear,
    ) -> Result<(), Memory>
        ensures { OnOk result (IsAsKnown (with_account self.old owner.now token.now amount) self.new) }
    {
        put_account(&mut self.view.accounts, owner, token, amount)
    }

    /// Sets what a party was paid of a token, in place of what it was paid before.
    pub fn replace_paid(
        &mut self,
        party: &Party,
        token: &Token,
        amount: Linear,
    ) -> Result<(), Memory>
        ensures { OnOk result (IsAsKnown (with_paid self.old party.now token.now amount) self.new) }
    {
        put_account(&mut self.view.paid, party, token, amount)
    }

    /// Sets the number of a choice.
    pub fn set_choice(&mut self, id: &ChoiceId, number: Linear) -> Result<(), Memory>
        ensures { OnOk result (self.new ≡ with_choice self.old id.now number) }
    {
        put_first(&mut self.view.choices, id, number)
    }

    /// Binds a value to a name.
    pub fn set_bound(&mut self, name: &Text, value: Linear) -> Result<(), Memory>
        ensures { OnOk result (self.new ≡ with_bound self.old name.now value) }
    {
        put_first(&mut self.view.bound, name, value)
    }

    /// Sets the two ends of the interval.
    pub fn set_interval(&mut self, start: Linear, end: Linear)
        ensures { self.new ≡ record { symbols = self.old.symbols; view = record (self.old.view) { start = start; end = end } } }
    {
        self.view.start = start;
        self.view.end = end;
    }

    // ---- what is known of symbols

    /// A new symbol for a number in a range, as `Symbols::fresh`.
    pub fn fresh(&mut self, least: Option<i128>, greatest: Option<i128>) -> Result<Linear, Memory>
        ensures symbols { IfOk result (λ e. GivesAny self.old.symbols self.new.symbols e least greatest) }
        ensures view { self.new.view ≡ self.old.view }
    {
        self.symbols.fresh(least, greatest)
    }

    /// A new symbol for a time: in runs whose times JSON can write it has 64 bits.
    pub fn new_time(&mut self) -> Result<Linear, Memory>
        ensures { IfOk result (AddsTime self.old self.new) }
    {
        let name = self.symbols.count();
        let e = self.symbols.unknown()?;
        self.view.put_time(name)?;
        Ok(e)
    }

    /// More is known where an expression is at least 0, as `Symbols::learn`.
    pub fn learn(&mut self, fact: Linear) -> Result<(), Memory>
        ensures symbols { OnOk result (Learns self.old.symbols self.new.symbols fact) }
        ensures view { self.new.view ≡ self.old.view }
    {
        self.symbols.learn(fact)
    }

    /// More is known where an expression is at least 0; false where that is shown to be impossible.
    pub fn assume(&mut self, number: &Linear) -> Result<bool, Memory>
        ensures symbols { IfOk result (Assumes self.old.symbols self.new.symbols number.now) }
        ensures view { self.new.view ≡ self.old.view }
    {
        self.symbols.assume(number)
    }

    /// Whether an expression is shown to be at least 0. Facts say nothing of a number, here and below.
    pub fn shows(&self, number: &Linear) -> bool
        ensures { result ≡ true → IsShown self.now.symbols.ranges self.now.symbols.facts number.now }
    {
        if number.is_number() && number.constant() < 0 {
            return false;
        }
        self.symbols.shows(number)
    }

    /// Whether an expression is shown to be below 0.
    pub fn refutes(&self, number: &Linear) -> bool
        ensures { result ≡ true → IsRefuted self.now.symbols.ranges self.now.symbols.facts number.now }
    {
        self.symbols.refutes(number)
    }

    /// A number that an expression is shown not to be below, where `least` returns one: as the ranges show it, if they do.
    pub fn some_least(&self, number: &Linear) -> Option<i128>
        ensures { IsFromAll self.now.symbols.ranges self.now.symbols.facts (λ r. number_at r number.now) result }
    {
        self.symbols.some_least(number)
    }

    /// The greatest number that an expression is shown not to be below, if there is one.
    pub fn least(&self, number: &Linear) -> Option<i128>
        ensures { IsFromAll self.now.symbols.ranges self.now.symbols.facts (λ r. number_at r number.now) result }
    {
        if number.is_number() {
            return self.some_least(number);
        }
        self.symbols.least(number)
    }

    /// The least number that an expression is shown not to be above, if there is one.
    pub fn greatest(&self, number: &Linear) -> Option<i128>
        ensures { IsUpToAll self.now.symbols.ranges self.now.symbols.facts (λ r. number_at r number.now) result }
    {
        if number.is_number() {
            return Some(number.constant());
        }
        self.symbols.greatest(number)
    }

    /// Whether an expression is shown to fit 128 bits, in runs whose times JSON can write.
    pub fn stays(&self, number: &Linear) -> Result<bool, Memory>
        ensures { IfOk result (StaysWhereSaid self.now number.now) }
    {
        stays(&self.view, &self.symbols, number)
    }
}
