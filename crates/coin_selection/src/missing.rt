//! What is still missing of each token: a map in the order of tokens that shrinks as amounts are counted against it.
ghost use Rattle.std.specs.Prelude.{◌≡◌, ◌↔◌, pos, int_le, ◌<ℤ◌, ◌≤ℤ◌, ◌+ℤ◌, ◌^◌};
ghost use Rattle.std.specs.Prelude.{Some, None, false, option_copied, option_map, is_some, IsTrue, OnOk, OnErr};
ghost use Rattle.std.specs.BTreeMap as map;
ghost use Rattle.std.specs.Option.{MatchOption, IfSome, unwrap_or};
ghost use Rattle.std.specs.FinMap.{get};
ghost use Rattle.contract.specs.Names.declared.token.Token.{Token as AToken};
ghost use Rattle.contract.specs.Names.Orders.{token_cmp};
ghost use Rattle.builder_spec.specs.Bundle.Bundles.{amount_of};
ghost use Rattle.contract.specs.Collections.Positive.{AllPositive};
ghost use Rattle.coin_selection.specs.MeetSupport.{left_after};
ghost use Rattle.coin_selection.specs.MissingSupport.{left, InRange, IsLeast, ChangesOne, Adds, or_one, more_by};

use builder_spec::{Bundle, WideSum};
use contract::{Memory, Token, TryClone};
use std::alloc::Global;
use std::collections::BTreeMap;
use std::marker::Model;

/// How much is still missing of each token: above 0, and without the limit of an amount. Of a token that isn't there
/// nothing is missing. Clauses see the finite map.
#[derive(Drop)]
pub struct Missing {
    left: BTreeMap<Token, WideSum>,
}

impl Model for Missing {
    ghost use Rattle.std.specs.FinMap.{code, get, from_entries};
    ghost use Rattle.std.specs.Option.{IfSome};
    ghost use Rattle.std.specs.Coded.{coded_ℤ};
    ghost use Rattle.contract.specs.Names.declared.token.Token.{Token};
    ghost use Rattle.contract.specs.Names.contracts.token.Token as token;
    ghost use Rattle.contract.specs.Names.Orders.{token_cmp};
    ghost use Rattle.builder_spec.specs.Bundle.Bundles.{Amounts};
    ghost use Rattle.coin_selection.specs.MissingSupport.{InRange};

    ghost Value = { Amounts };

    ghost coded = { code token.the_row.coded coded_ℤ };

    ghost view = { λ a. from_entries a.left.entries };

    ghost invariant = { λ a. (t : Token) → IfSome (get (from_entries {R = token_cmp} a.left.entries) t) InRange };
}

impl Missing {
    /// Nothing is needed, in a map that will take memory from `alloc`.
    pub fn new(alloc: Global) -> Missing
        ensures { (t : AToken) → get result t ≡ None }
    {
        Missing {
            left: BTreeMap::new(alloc),
        }
    }

    /// So much more of a token is needed. A refusal changes nothing. It takes logarithmic time.
    pub fn add(&mut self, token: &Token, amount: i128) -> Result<(), Memory>
        requires positive { pos 0 <ℤ amount }
        requires room { (amount_of self.old token.now +ℤ amount) ≤ℤ pos (2 ^ 200) }
        ensures adds { OnOk result (Adds self.old self.new token.now amount) }
        ensures err { OnErr result ((t : AToken) → get self.new t ≡ get self.old t) }
    {
        if change(&mut self.left, token, amount) {
            Ok(())
        } else {
            self.put(token.try_clone()?, amount)
        }
    }

    /// One of a token is needed, where none of it is. A refusal changes nothing. It takes logarithmic time.
    pub fn add_one(&mut self, token: Token) -> Result<(), Memory>
        ensures one { OnOk result (ChangesOne (get self.old) (get self.new) token (λ _. or_one (get self.old token))) }
        ensures err { OnErr result ((t : AToken) → get self.new t ≡ get self.old t) }
    {
        if self.left.contains_key(&token) {
            return Ok(());
        }
        self.put(token, 1)
    }

    // So much of a token is needed, of which none was.
    fn put(&mut self, token: Token, amount: i128) -> Result<(), Memory>
        requires { InRange amount }
        ensures so_much { OnOk result (ChangesOne (get self.old) (get self.new) token (λ _. Some amount)) }
        ensures err { OnErr result ((t : AToken) → get self.new t ≡ get self.old t) }
    {
        let mut sum = WideSum::zero();
        sum.add(amount);
        self.left.insert(token, sum)?;
        Ok(())
    }

    /// Whether any of a token is needed. It takes logarithmic time.
    pub fn lacks(&self, token: &Token) -> bool
        ensures { result ≡ is_some (get self.now token.now) }
    {
        self.left.contains_key(token)
    }

    /// Whether nothing is needed.
    pub fn is_met(&self) -> bool
        ensures { IsTrue result ↔ ((t : AToken) → get self.now t ≡ None) }
    {
        self.left.is_empty()
    }

    /// The least token of which any is needed.
    pub fn least(&self) -> Option<&Token>
        ensures { MatchOption (option_copied result) ((t : AToken) → get self.now t ≡ None) (IsLeast self.now) }
    {
        match self.left.first_key_value() {
            Some((token, _)) => Some(token),
            None => None,
        }
    }

    /// Counts what a bundle holds against what is needed: of each token so much less is needed. It takes no memory.
    pub fn meet(&mut self, bundle: &Bundle)
        ensures { (t : AToken) → get self.new t ≡ left (get self.old t) (amount_of bundle.now t) }
    {
        if !self.left.is_empty() {
            self.take_all(bundle.entries());
        }
    }

    // Counts these amounts against what is needed, one after another.
    fn take_all(&mut self, entries: &[(Token, i128)])
        requires { AllPositive entries.now }
        ensures { (t : AToken) → get self.new t ≡ left_after (get self.old t) t entries.now }
    {
        for entry in entries {
            self.take(&entry.0, entry.1);
        }
    }

    // Counts an amount of a token against what is needed of it.
    fn take(&mut self, token: &Token, amount: i128)
        requires { pos 0 <ℤ amount }
        ensures { ChangesOne (get self.old) (get self.new) token.now (λ o. left o amount) }
    {
        if change(&mut self.left, token, -amount) && is_over(&self.left, token) {
            self.left.remove(token);
        }
    }
}

// Changes how much of a token is needed, where any is, and answers whether it is.
fn change(left: &mut BTreeMap<Token, WideSum>, token: &Token, amount: i128) -> bool
    requires { IfSome (map.get token_cmp left.old token.now) InRange }
    ensures there { result ≡ is_some (map.get token_cmp left.old token.now) }
    ensures changed { ChangesOne (map.get token_cmp left.old) (map.get token_cmp left.new) token.now (more_by amount) }
{
    match left.get_mut(token) {
        Some(sum) => {
            sum.add(amount);
            true
        }
        None => false,
    }
}

// Whether nothing more of a token is needed that is there.
fn is_over(left: &BTreeMap<Token, WideSum>, token: &Token) -> bool
    ensures { result ≡ unwrap_or (option_map (λ n. int_le n (pos 0)) (map.get token_cmp left.now token.now)) false }
{
    match left.get(token) {
        Some(need) => need.is_at_most(&WideSum::zero()),
        None => false,
    }
}
