//! Bundles.
ghost use Rattle.std.specs.Prelude.{◌≡◌, ◌↔◌, IfOk, pos, ◌<ℤ◌, ◌≤ℤ◌, ◌-ℤ◌, IsTrue, [], true, false, OnOk, OnErr, Ok, Err};
ghost use Rattle.std.proofs.Math.Dec.{T};
ghost use Rattle.std.specs.Result.{IsOkUnless};
ghost use Rattle.std.specs.FinMap as map;
ghost use Rattle.std.specs.FinMap.{is_sorted};
ghost use Rattle.names.specs.Orders.{token_cmp};
ghost use Rattle.bundle.specs.Bundles.{amount_of, with_amount, plus, minus, lacking, TellsShort, covers, too_large, AllPositive};
ghost use Rattle.bundle.specs.WalksSupport.{amount_in, IsPlaceOf};

use crate::adding::{is_too_large, sum_of};
use crate::fault::BundleFault;
use crate::taking::{drop_zeros, lacking, take_all};
use crate::walk::{Entry, number_of};
use names::Token;
use names::collections::{Bytes, Entries, Memory, Text, TryClone};
use std::alloc::Global;
use std::cmp::Ordering;
use std::marker::Model;

/// Amounts of tokens, each above 0 and at most 2^127 - 1, in the token's smallest unit: lovelace for
/// ada. A token that isn't there has 0.
#[derive(Drop)]
pub struct Bundle {
    pub(crate) entries: Vec<Entry>,
}

impl Model for Bundle {
    ghost use Rattle.std.specs.FinMap.{code, from_sorted, is_sorted};
    ghost use Rattle.std.specs.Coded.{coded_ℤ};
    ghost use Rattle.std.proofs.Math.Dec.{T};
    ghost use Rattle.names.specs.Orders.{token_cmp};
    ghost use Rattle.names.specs.contracts.token.Token as token;
    ghost use Rattle.bundle.specs.Bundles.{Amounts, AllPositive};

    ghost Value = { Amounts };

    ghost coded = { code token.the_row.coded coded_ℤ };

    ghost view = { λ a. from_sorted a.entries.items };

    ghost invariant = { λ a. T (is_sorted token_cmp a.entries.items) × AllPositive a.entries.items };
}

impl Bundle {
    /// Nothing, in a bundle that will take memory from `alloc`.
    pub fn new(alloc: Global) -> Bundle
        ensures { result ≡ map.empty }
    {
        Bundle {
            entries: Vec::new(alloc),
        }
    }

    /// The bundle of these amounts, all above 0. Takes no memory.
    pub fn from_entries(entries: Entries<Token, i128>) -> Bundle
        requires { AllPositive entries }
        ensures { result ≡ map.from_sorted entries }
    {
        Bundle {
            entries: entries.into_vec(),
        }
    }

    /// The amounts in the order of their tokens.
    pub fn entries(&self) -> &[(Token, i128)]
        ensures all { result.now ≡ map.entries self.now }
        ensures positive { AllPositive (map.entries self.now) }
    {
        self.list()
    }

    // The amounts, as the list that makes the bundle.
    pub(crate) fn list(&self) -> &[Entry]
        ensures makes { map.from_sorted result.now ≡ self.now }
        ensures all { result.now ≡ map.entries self.now }
        ensures sorted { T (is_sorted token_cmp result.now) }
        ensures positive { AllPositive result.now }
    {
        &self.entries
    }

    /// Whether there is nothing in it.
    pub fn is_empty(&self) -> bool
        ensures { IsTrue result ↔ (self.now ≡ map.empty) }
    {
        are_none(self.list())
    }

    /// How much there is of a token: 0 where it isn't there. It takes logarithmic time and no memory.
    pub fn amount(&self, token: &Token) -> i128
        ensures held { result ≡ amount_of self.now token.now }
        ensures natural { pos 0 ≤ℤ result }
    {
        self.amount_by(&token.symbol, &token.name)
    }

    /// How much there is of the token with this currency symbol and name: 0 where it isn't there. It
    /// takes logarithmic time and no memory.
    pub fn amount_by(&self, symbol: &Bytes, name: &Text) -> i128
        ensures held { result ≡ amount_of self.now (record { symbol = symbol.now; name = name.now }) }
        ensures natural { pos 0 ≤ℤ result }
    {
        found_amount(self.list(), symbol, name)
    }

    /// Whether there is as much of each token as in the other. Takes no memory, and time linear in both.
    pub fn covers(&self, other: &Bundle) -> bool
        ensures { result ≡ covers self.now other.now }
    {
        lacking(self, other).is_none()
    }

    /// Adds another bundle, in time linear in both: refused with `TooLarge` exactly where the sum of a
    /// token is above 2^127 - 1, and otherwise only for memory. A refusal changes nothing.
    pub fn add(&mut self, other: &Bundle) -> Result<(), BundleFault>
        ensures large { too_large self.old other.now ≡ true → result ≡ Err BundleFault.TooLarge }
        ensures fits { too_large self.old other.now ≡ false → IsOkUnless result BundleFault.Memory }
        ensures ok { OnOk result (self.new ≡ plus self.old other.now) }
        ensures err { OnErr result (self.new ≡ self.old) }
    {
        if is_too_large(self, other) {
            return Err(BundleFault::TooLarge);
        }
        *self = sum_of(self, other)?;
        Ok(())
    }

    /// Takes an amount of one token out, of which there is as much. It takes no memory and logarithmic
    /// time, or linear time where nothing is left of the token.
    pub fn reduce(&mut self, token: &Token, amount: i128)
        requires positive { pos 0 <ℤ amount }
        requires held { amount ≤ℤ amount_of self.old token.now }
        ensures { self.new ≡ with_amount self.old token.now (amount_of self.old token.now -ℤ amount) }
    {
        let left = self.amount(token) - amount;
        set_known(&mut self.entries, token, left);
    }

    /// Subtracts another bundle, in time linear in both: refused with `Short` and the least token of
    /// which there is less exactly where there is one, or with `Memory` where memory to name it is
    /// refused. A refusal changes nothing, and no memory is taken where nothing is short.
    pub fn subtract(&mut self, other: &Bundle) -> Result<(), BundleFault>
        ensures short { TellsShort (lacking self.old other.now) result }
        ensures ok { OnOk result (self.new ≡ minus self.old other.now) }
        ensures err { OnErr result (self.new ≡ self.old) }
    {
        if let Some(token) = lacking(self, other) {
            return Err(BundleFault::Short(token.try_clone()?));
        }
        take_all(self, other);
        Ok(())
    }
}

fn are_none(entries: &[Entry]) -> bool
    ensures { IsTrue result ↔ (entries.now ≡ []) }
{
    entries.is_empty()
}

// Where the token with this currency symbol and name is, or where it would go.
fn place_of(entries: &[Entry], symbol: &Bytes, name: &Text) -> Result<usize, usize>
    requires { T (is_sorted token_cmp entries.now) }
    ensures { IsPlaceOf (record { symbol = symbol.now; name = name.now }) entries.now result }
{
    entries.binary_search_by(|entry| compare_with(&entry.0, symbol, name))
}

fn compare_with(token: &Token, symbol: &Bytes, name: &Text) -> Ordering
    ensures { result ≡ token_cmp token.now (record { symbol = symbol.now; name = name.now }) }
{
    token.symbol.cmp(symbol).then_with(|| token.name.cmp(name))
}

fn found_amount(entries: &[Entry], symbol: &Bytes, name: &Text) -> i128
    requires sorted { T (is_sorted token_cmp entries.now) }
    requires positive { AllPositive entries.now }
    ensures natural { pos 0 ≤ℤ result }
    ensures held { result ≡ amount_in entries.now (record { symbol = symbol.now; name = name.now }) }
{
    match place_of(entries, symbol, name) {
        Ok(at) => number_of(&entries[at]),
        Err(_) => 0,
    }
}

// Sets the amount of a token that is there, and 0 removes it.
fn set_known(entries: &mut Vec<Entry>, token: &Token, amount: i128)
    requires sorted { T (is_sorted token_cmp entries.old.items) }
    requires positive { AllPositive entries.old.items }
    requires natural { pos 0 ≤ℤ amount }
    requires known { pos 0 <ℤ amount_in entries.old.items token.now }
    ensures sorted { T (is_sorted token_cmp entries.new.items) }
    ensures positive { AllPositive entries.new.items }
    ensures set { map.from_sorted entries.new.items ≡ with_amount (map.from_sorted entries.old.items) token.now amount }
{
    write_known(entries, token, amount);
    if amount == 0 {
        drop_zeros(entries);
    }
}

fn write_known(entries: &mut Vec<Entry>, token: &Token, amount: i128)
    requires sorted { T (is_sorted token_cmp entries.old.items) }
    requires known { pos 0 <ℤ amount_in entries.old.items token.now }
    ensures { entries.new.items ≡ map.put token_cmp token.now amount entries.old.items }
{
    match place_of(entries, &token.symbol, &token.name) {
        Ok(at) => write_amount(&mut entries[at], amount),
        Err(_) => {}
    }
}

fn write_amount(entry: &mut Entry, amount: i128)
    ensures { entry.new ≡ (entry.old.0, amount) }
{
    entry.1 = amount;
}
