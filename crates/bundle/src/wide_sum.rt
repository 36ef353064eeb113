//! Sums of amounts that no integer type holds.
ghost use Rattle.std.specs.Prelude.{◌≡◌, pos, ◌+ℤ◌, ◌≤ℤ◌, int_le, neg_ℤ, ◌^◌};
ghost use Rattle.std.specs.Ordering.{int_eq};
ghost use Rattle.std.proofs.Common.{rules};
ghost use Rattle.std.specs.Cmp.Rules.{comparing};

use std::marker::Model;

/// A whole number: a sum of amounts, each of which an `i128` holds, where the sum itself may be larger.
#[derive(Drop)]
pub struct WideSum {
    high: i128,
    low: u128,
}

impl Model for WideSum {
    ghost use Rattle.std.specs.Prelude.{ℤ, pos, ◌+ℤ◌, ◌*ℤ◌, ◌^◌, ◌<◌};

    ghost Value = { ℤ };

    ghost view = { λ a. a.high *ℤ pos (2 ^ 128) +ℤ pos a.low };

    ghost invariant = { λ a. a.low < 2 ^ 128 };
}

impl WideSum {
    /// The sum of nothing.
    pub fn zero() -> WideSum
        ensures { result ≡ pos 0 }
    {
        WideSum { high: 0, low: 0 }
    }

    /// Adds an amount, of either sign. 2^72 amounts stay within the limits.
    pub fn add(&mut self, amount: i128)
        requires low { neg_ℤ (pos (2 ^ 200)) ≤ℤ self.old }
        requires high { self.old ≤ℤ pos (2 ^ 200) }
        ensures { self.new ≡ self.old +ℤ amount }
    {
        if amount < 0 {
            self.lose(amount.unsigned_abs());
        } else {
            self.gain(amount.unsigned_abs());
        }
    }

    fn gain(&mut self, amount: u128)
        requires { self.old ≤ℤ pos (2 ^ 200) }
        ensures { self.new ≡ self.old +ℤ pos amount }
    {
        let room = u128::MAX - self.low;
        if amount <= room {
            self.low += amount;
        } else {
            self.low = amount - room - 1;
            self.high += 1;
        }
    }

    fn lose(&mut self, amount: u128)
        requires { neg_ℤ (pos (2 ^ 200)) ≤ℤ self.old }
        ensures { self.new +ℤ pos amount ≡ self.old }
    {
        if amount <= self.low {
            self.low -= amount;
        } else {
            self.low = u128::MAX - (amount - self.low) + 1;
            self.high -= 1;
        }
    }

    /// Whether it is at most another.
    pub fn is_at_most(&self, other: &WideSum) -> bool
        ensures { result ≡ int_le self.now other.now }
    {
        self.high < other.high || (self.high == other.high && self.low <= other.low)
    }
}

impl PartialEq for WideSum {
    ghost eq = { int_eq };

    ghost laws = { Prim.search (comparing, rules) };

    fn eq(&self, other: &WideSum) -> bool {
        self.high == other.high && self.low == other.low
    }
}

impl Eq for WideSum {
    ghost laws = { Prim.search (comparing, rules) };
}
