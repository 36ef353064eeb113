//! Ranges that a fact makes narrower.
ghost use Rattle.std.specs.Prelude.{IfOk, OnOk};
ghost use Rattle.linear.specs.Linear.{number_at};
ghost use Rattle.linear.specs.Bounded.{numbered, IsFromBy, IsUpToBy};
ghost use Rattle.linear.specs.Ranged.{AreNarrowed, AreWithin, IsRangeBy};

use crate::bounds::{Bounds, above_zero, greater, greatest_of, least_of, least_without, lesser};
use crate::checked::negation;
use crate::linear::Linear;
use crate::ranges::Ranges;
use contract::Memory;

// The range of a symbol with this coefficient in an expression that is at least 0.
fn range_by(
    bounds: &Ranges,
    expression: &Linear,
    symbol: usize,
    coefficient: i128,
) -> Result<Bounds, Memory>
    ensures { IfOk result (IsRangeBy bounds.now expression.now symbol) }
{
    let x = Linear::symbol(expression.memory(), symbol)?;
    let least = least_of(bounds, symbol);
    let greatest = greatest_of(bounds, symbol);
    if coefficient > 0 {
        let least = greater(least, lower_by(bounds, expression, &x, coefficient));
        Ok(Bounds { least, greatest })
    } else {
        let greatest = lesser(greatest, upper_by(bounds, expression, &x, coefficient));
        Ok(Bounds { least, greatest })
    }
}

// A lower bound of an expression that another, which is at least 0, has so many times.
fn lower_by(
    bounds: &Ranges,
    expression: &Linear,
    wanted: &Linear,
    coefficient: i128,
) -> Option<i128>
    ensures { IsFromBy (numbered 0 bounds.now) expression.now (λ r. number_at r wanted.now) result }
{
    let m = above_zero(coefficient)?;
    least_without(bounds, 1, wanted, m, -1, expression)
}

// An upper bound, where the coefficient is below 0.
fn upper_by(
    bounds: &Ranges,
    expression: &Linear,
    wanted: &Linear,
    coefficient: i128,
) -> Option<i128>
    ensures { IsUpToBy (numbered 0 bounds.now) expression.now (λ r. number_at r wanted.now) result }
{
    let m = above_zero(coefficient)?;
    let bound = least_without(bounds, -1, wanted, m, -1, expression)?;
    negation(bound)
}

// Makes the range of one symbol narrower.
fn narrow_one(
    bounds: &mut Ranges,
    expression: &Linear,
    symbol: usize,
    coefficient: i128,
) -> Result<(), Memory>
    ensures { OnOk result (AreNarrowed bounds.old bounds.new expression.now) }
{
    let range = range_by(bounds, expression, symbol, coefficient)?;
    bounds.put(symbol, range)?;
    Ok(())
}

/// Makes the range of each symbol of an expression that is at least 0 narrower.
pub fn narrow(bounds: &mut Ranges, expression: &Linear) -> Result<(), Memory>
    ensures { OnOk result (AreNarrowed bounds.old bounds.new expression.now) }
{
    for term in expression.terms() {
        narrow_one(bounds, expression, term.0, term.1)?;
    }
    Ok(())
}

/// Makes the range of a symbol narrower, where it lies in another as well.
pub fn narrow_to(bounds: &mut Ranges, symbol: usize, range: Bounds) -> Result<(), Memory>
    ensures { OnOk result (AreWithin bounds.old bounds.new symbol range.least range.greatest) }
{
    let least = greater(least_of(bounds, symbol), range.least);
    let greatest = lesser(greatest_of(bounds, symbol), range.greatest);
    bounds.put(symbol, Bounds { least, greatest })?;
    Ok(())
}
