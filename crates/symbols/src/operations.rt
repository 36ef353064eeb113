//! Products and quotients that have a symbol.
ghost use Rattle.std.specs.Prelude.{◌≡◌, ℕ, ◌<◌, pos, neg_ℤ, ◌≤ℤ◌, ◌<ℤ◌, true, IfOk, length, Some, None};
ghost use Rattle.std.specs.Option.{IfSome};
ghost use Rattle.symbols.specs.Held.{operations_of};
ghost use Rattle.symbols.specs.Results.{IsOf, IsSymbolOf, IsNamed, NamesInRange};
ghost use Rattle.linear.specs.ResultRanges.{AreCorners, IsProductRange, IsTurned, IsByGreatest, IsLeastQuotient, IsGreatestQuotient, IsQuotientRange};

use crate::apart::cancels;
use crate::named::{Named, Operations};
use crate::newest::{MOST_LISTED, first_looked, make_room};
use evaluation::collections::{Memory, TryClone};
use linear::{Bounds, Linear, Ranges};

fn same_kind(left: bool, right: bool) -> bool
    ensures { result ≡ true → left ≡ right }
{
    left == right
}

// Whether an operation is that of two expressions.
fn is_of(operation: &Named, divides: bool, first: &Linear, second: &Linear) -> Result<bool, Memory>
    ensures { IfOk result (λ yes. yes ≡ true → IsOf operation.now divides first.now second.now) }
{
    let kind = same_kind(operation.divides, divides);
    if !kind {
        return Ok(false);
    }
    let right = cancels(&operation.right, second, -1)?;
    if !right {
        return Ok(false);
    }
    let left = cancels(&operation.left, first, -1)?;
    Ok(left)
}

// The symbol of an operation, if it is that of two expressions.
fn symbol_of(
    operation: &Named,
    divides: bool,
    first: &Linear,
    second: &Linear,
) -> Result<Option<usize>, Memory>
    ensures { IfOk result (λ x. IfSome x (IsSymbolOf operation.now divides first.now second.now)) }
{
    let yes = is_of(operation, divides, first, second)?;
    if yes {
        Ok(Some(operation.symbol))
    } else {
        Ok(None)
    }
}

fn symbol_at(
    operations: &[Named],
    at: usize,
    divides: bool,
    first: &Linear,
    second: &Linear,
) -> Result<Option<usize>, Memory>
    requires { at < length operations.now }
    ensures { IfOk result (λ x. IfSome x (IsNamed (operations_of operations.now) divides first.now second.now)) }
{
    let symbol = symbol_of(&operations[at], divides, first, second)?;
    Ok(symbol)
}

/// The symbol of an operation of two expressions, if one of the newest has one.
pub(crate) fn found(
    operations: &[Named],
    divides: bool,
    first: &Linear,
    second: &Linear,
) -> Result<Option<usize>, Memory>
    ensures { IfOk result (λ o. IfSome o (IsNamed (operations_of operations.now) divides first.now second.now)) }
{
    for at in first_looked(operations.len())..operations.len() {
        let symbol = symbol_at(operations, at, divides, first, second)?;
        if symbol.is_some() {
            return Ok(symbol);
        }
    }
    Ok(None)
}

/// A new symbol in a range for an operation of two expressions.
pub(crate) fn put_operation(
    bounds: &mut Ranges,
    operations: &mut Operations,
    divides: bool,
    first: &Linear,
    second: &Linear,
    range: Bounds,
) -> Result<Linear, Memory>
    ensures { IfOk result (NamesInRange divides range bounds.old operations.old bounds.new operations.new first.now second.now) }
{
    let symbol = bounds.len();
    let e = Linear::symbol(first.memory(), symbol)?;
    let left = first.try_clone()?;
    let right = second.try_clone()?;
    bounds.push(range)?;
    let mut list = operations.own()?;
    make_room(first.memory(), &mut list, MOST_LISTED)?;
    list.push(Named {
        divides,
        left,
        right,
        symbol,
    })?;
    let shared = Operations::of(first.memory(), list)?;
    *operations = shared;
    Ok(e)
}
