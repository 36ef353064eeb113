//! Linear expressions.
ghost use Rattle.std.specs.Prelude.{◌≡◌, ℕ, pos, neg_ℤ, ◌+ℤ◌, ◌-ℤ◌, ◌*ℤ◌, IfOk, true, [], ◌∷◌};
ghost use Rattle.std.specs.Option.{IfSome};
ghost use Rattle.linear.specs.Linear.{number_at, number, symbol, IsBelow};
ghost use Rattle.linear.specs.Combined.{StandsFor, IsMadeOf, combined_at};

use crate::checked::{product, sum};
use crate::terms::{Term, Terms, combined};
use contract::{Memory, TryClone};
use std::alloc::Global;
use std::marker::Model;

/// A linear expression over symbols, which stand for whole numbers: a constant, and symbols with their
/// coefficients, the newest symbol first. Copies share the terms. Clauses see the definitions' expression.
#[derive(Drop)]
pub struct Linear {
    pub(crate) constant: i128,
    pub(crate) terms: Terms,
}

impl Model for Linear {
    ghost use Rattle.linear.specs.Linear.{Linear as Expression};

    ghost Value = { Expression };

    ghost view = { λ a. record { constant = a.constant; terms = a.terms } };
}

impl TryClone for Linear {
    fn try_clone(&self) -> Result<Linear, Memory> {
        let terms = self.terms.try_clone()?;
        Ok(Linear {
            constant: self.constant,
            terms,
        })
    }
}

impl Linear {
    /// A number, in an expression that will take memory from `alloc`.
    pub fn number(alloc: Global, value: i128) -> Linear
        ensures { result ≡ number value }
    {
        Linear {
            constant: value,
            terms: Terms::none(alloc),
        }
    }

    /// A symbol.
    pub fn symbol(alloc: Global, name: usize) -> Result<Linear, Memory>
        ensures { IfOk result (λ e. e ≡ symbol name) }
    {
        let mut terms = Vec::new(alloc);
        terms.push((name, 1))?;
        Ok(Linear {
            constant: 0,
            terms: Terms::new(terms)?,
        })
    }

    /// What stands in it without a symbol.
    pub fn constant(&self) -> i128
        ensures { result ≡ self.now.constant }
    {
        self.constant
    }

    /// Where it takes memory from.
    pub fn memory(&self) -> Global {
        self.terms.memory()
    }

    /// Its symbols with their coefficients, the newest first.
    pub fn terms(&self) -> &[Term]
        ensures { result.now ≡ self.now.terms }
    {
        self.terms.as_slice()
    }

    /// Whether it has no symbol.
    pub fn is_number(&self) -> bool
        ensures { result ≡ true → self.now.terms ≡ [] }
    {
        self.terms().is_empty()
    }

    /// Whether it is 0 without a symbol.
    pub fn is_zero(&self) -> bool
        ensures { result ≡ true → self.now ≡ number (pos 0) }
    {
        self.constant == 0 && self.terms().is_empty()
    }

    /// A multiple of this expression and one of another, added; none where a number on the way leaves 128 bits, or where there
    /// are more than `MOST_SYMBOLS` symbols.
    pub fn combine(
        &self,
        factor: i128,
        other: &Linear,
        other_factor: i128,
    ) -> Result<Option<Linear>, Memory>
        ensures { IfOk result (IsMadeOf self.now other.now (combined_at factor self.now other_factor other.now)) }
    {
        let Some(base) = both_times(factor, self.constant(), other_factor, other.constant()) else {
            return Ok(None);
        };
        match combined(
            self.memory(),
            factor,
            self.terms(),
            other_factor,
            other.terms(),
        )? {
            Some(out) => {
                let terms = Terms::new(out)?;
                Ok(Some(Linear {
                    constant: base,
                    terms,
                }))
            }
            None => Ok(None),
        }
    }

    /// The sum of this expression and another; none where a coefficient leaves 128 bits, or where there are more than
    /// `MOST_SYMBOLS` symbols.
    pub fn plus(&self, other: &Linear) -> Result<Option<Linear>, Memory>
        ensures { IfOk result (IsMadeOf self.now other.now (λ r. number_at r self.now +ℤ number_at r other.now)) }
    {
        self.combine(1, other, 1)
    }

    /// This expression less another; none where a coefficient leaves 128 bits, or where there are more than
    /// `MOST_SYMBOLS` symbols.
    pub fn minus(&self, other: &Linear) -> Result<Option<Linear>, Memory>
        ensures { IfOk result (IsMadeOf self.now other.now (λ r. number_at r self.now -ℤ number_at r other.now)) }
    {
        self.combine(1, other, -1)
    }

    /// This expression times a number; none where a coefficient leaves 128 bits.
    pub fn times(&self, factor: i128) -> Result<Option<Linear>, Memory>
        ensures { IfOk result (λ o. IfSome o (StandsFor (λ r. factor *ℤ number_at r self.now) (λ n. IsBelow n self.now))) }
    {
        self.combine(factor, self, 0)
    }

    /// This expression and a number more; none where its constant leaves 128 bits.
    pub fn raised(&self, by: i128) -> Result<Option<Linear>, Memory>
        ensures { IfOk result (λ o. IfSome o (StandsFor (λ r. number_at r self.now +ℤ by) (λ n. IsBelow n self.now))) }
    {
        let more = Linear::number(self.memory(), by);
        self.plus(&more)
    }
}

// A multiple of a number and one of another, added.
pub(crate) fn both_times(
    factor: i128,
    number: i128,
    other_factor: i128,
    other: i128,
) -> Option<i128>
    ensures { IfSome result (λ n. n ≡ (factor *ℤ number) +ℤ (other_factor *ℤ other)) }
{
    let a = product(factor, number)?;
    let b = product(other_factor, other)?;
    sum(a, b)
}
