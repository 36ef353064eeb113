//! Ranges where some symbols lie in a range.
ghost use Rattle.std.specs.Prelude.{◌≡◌, ◌<◌, length, OnOk};
ghost use Rattle.linear.specs.Linear.{number_at, IsFrom, IsUpTo, Valuation, AreInRange};
ghost use Rattle.linear.specs.Bounded.{numbered};
ghost use Rattle.symbols.specs.Symbols.{result as result_at, AreResults};
ghost use Rattle.symbols.specs.Held.{operations_of};
ghost use Rattle.symbols.specs.Within.{LieIn, HoldWhere, IsResultRange};

use crate::named::Named;
use evaluation::collections::Memory;
use linear::{
    Bounds, Linear, Ranges, greatest_shown, least_shown, narrow_to, product_range, quotient_range,
};

// The most products and quotients, the newest, whose ranges are looked at anew: 8.
const MOST_RANGED: usize = 8;

/// Makes the range of each of some symbols narrower, where they lie in another as well.
pub(crate) fn put_range(bounds: &mut Ranges, symbols: &[usize], range: Bounds) -> Result<(), Memory>
    ensures { OnOk result (HoldWhere (λ r. LieIn r symbols.now range) bounds.old bounds.new) }
{
    for symbol in symbols {
        narrow_to(bounds, *symbol, range)?;
    }
    Ok(())
}

/// Makes the ranges of the newest products and quotients narrower, of those that have no least or no greatest number.
pub(crate) fn put_results(bounds: &mut Ranges, operations: &[Named]) -> Result<(), Memory>
    ensures { OnOk result (HoldWhere (λ r. AreResults r (operations_of operations.now)) bounds.old bounds.new) }
{
    for at in operations.len().saturating_sub(MOST_RANGED)..operations.len() {
        put_result_at(bounds, operations, at)?;
    }
    Ok(())
}

// .. that of the one at a place.
fn put_result_at(bounds: &mut Ranges, operations: &[Named], at: usize) -> Result<(), Memory>
    requires { at < length operations.now }
    ensures { OnOk result (HoldWhere (λ r. AreResults r (operations_of operations.now)) bounds.old bounds.new) }
{
    let operation = &operations[at];
    if has_both_ends(bounds, operation.symbol) {
        return Ok(());
    }
    put_result(bounds, operation)?;
    Ok(())
}

// Whether the least and the greatest number of a symbol are known.
fn has_both_ends(bounds: &Ranges, symbol: usize) -> bool {
    let range = bounds.at(symbol);
    range.least.is_some() && range.greatest.is_some()
}

// Makes the range of a product or quotient narrower.
fn put_result(bounds: &mut Ranges, operation: &Named) -> Result<(), Memory>
    ensures { OnOk result (HoldWhere (λ r. r operation.now.symbol ≡ result_at operation.now.divides (number_at r operation.now.left) (number_at r operation.now.right)) bounds.old bounds.new) }
{
    let left = range_of(bounds, &operation.left);
    let right = range_of(bounds, &operation.right);
    let range = result_range(operation.divides, left, right);
    narrow_to(bounds, operation.symbol, range)?;
    Ok(())
}

// The range of an expression, by the ranges of its symbols.
fn range_of(bounds: &Ranges, expression: &Linear) -> Bounds
    ensures least { (r : Valuation) → AreInRange r (numbered 0 bounds.now) → IsFrom result.least (number_at r expression.now) }
    ensures greatest { (r : Valuation) → AreInRange r (numbered 0 bounds.now) → IsUpTo result.greatest (number_at r expression.now) }
{
    Bounds {
        least: least_shown(bounds, &[], expression),
        greatest: greatest_shown(bounds, &[], expression),
    }
}

// The range of the quotients, or of the products, of numbers in two ranges.
fn result_range(divides: bool, left: Bounds, right: Bounds) -> Bounds
    ensures { IsResultRange divides left right result }
{
    if divides {
        quotient_range(left, right)
    } else {
        product_range(left, right)
    }
}
