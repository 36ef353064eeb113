//! What is known of a product: how it lies to multiples of its factors.
ghost use Rattle.std.specs.Prelude.{◌≡◌, ℤ, pos, ◌≤ℤ◌, true, Some, OnOk};
ghost use Rattle.linear.specs.Linear.{IsFrom, IsUpTo};
ghost use Rattle.symbols.specs.Products.{LearnsFromMultiple, LearnsUpToMultiple, LearnsSum, LearnsProduct};

use crate::symbols::Symbols;
use evaluation::collections::Memory;
use linear::{Bounds, Linear, negation};

/// Learns how a product of two expressions, which lie in ranges, lies to multiples of them: where `x` isn't below 0 and `y` isn't
/// above `c`, `x * y` isn't above `c * x`, and it isn't below that where `x` isn't above 0. Of a factor whose sign isn't known
/// nothing is learned.
pub(crate) fn learn_product(
    symbols: &mut Symbols,
    first: &Linear,
    second: &Linear,
    product: &Linear,
    left: Bounds,
    right: Bounds,
) -> Result<(), Memory>
    ensures { OnOk result (LearnsProduct left right symbols.old symbols.new first.now second.now product.now) }
{
    learn_multiple(symbols, first, second, product, left, right)?;
    learn_turned(symbols, first, second, product, left, right)?;
    Ok(())
}

// .. to a multiple of the second, by the greatest number of the first.
fn learn_turned(
    symbols: &mut Symbols,
    first: &Linear,
    second: &Linear,
    product: &Linear,
    left: Bounds,
    right: Bounds,
) -> Result<(), Memory>
    ensures { OnOk result (LearnsProduct left right symbols.old symbols.new first.now second.now product.now) }
{
    learn_multiple(symbols, second, first, product, right, left)
}

// .. to a multiple of the first, by the greatest number of the second.
fn learn_multiple(
    symbols: &mut Symbols,
    first: &Linear,
    second: &Linear,
    product: &Linear,
    left: Bounds,
    right: Bounds,
) -> Result<(), Memory>
    ensures { OnOk result (LearnsProduct left right symbols.old symbols.new first.now second.now product.now) }
{
    let _second = second;
    let natural = is_natural(left.least);
    if natural {
        return learn_up_to(symbols, product, first, right.greatest);
    }
    let opposite = is_opposite(left.greatest);
    if opposite {
        return learn_from(symbols, product, first, right.greatest);
    }
    Ok(())
}

// Whether a number with this lower bound is at least 0.
fn is_natural(least: Option<i128>) -> bool
    ensures { result ≡ true → (n : ℤ) → IsFrom least n → pos 0 ≤ℤ n }
{
    match least {
        Some(bound) => bound >= 0,
        None => false,
    }
}

// Whether a number with this upper bound is at most 0.
fn is_opposite(greatest: Option<i128>) -> bool
    ensures { result ≡ true → (n : ℤ) → IsUpTo greatest n → n ≤ℤ pos 0 }
{
    match greatest {
        Some(bound) => bound <= 0,
        None => false,
    }
}

/// Learns that an expression is no less than a multiple of another.
pub(crate) fn learn_from(
    symbols: &mut Symbols,
    expression: &Linear,
    factor: &Linear,
    times: Option<i128>,
) -> Result<(), Memory>
    ensures { OnOk result (LearnsFromMultiple symbols.old symbols.new expression.now factor.now times) }
{
    match times {
        Some(least) => learn_more(symbols, expression, factor, least),
        None => Ok(()),
    }
}

fn learn_more(
    symbols: &mut Symbols,
    expression: &Linear,
    factor: &Linear,
    times: i128,
) -> Result<(), Memory>
    ensures { OnOk result (LearnsFromMultiple symbols.old symbols.new expression.now factor.now (Some times)) }
{
    match negation(times) {
        Some(less) => put_sum(symbols, 1, expression, less, factor),
        None => Ok(()),
    }
}

/// Learns that an expression is no more than a multiple of another.
pub(crate) fn learn_up_to(
    symbols: &mut Symbols,
    expression: &Linear,
    factor: &Linear,
    times: Option<i128>,
) -> Result<(), Memory>
    ensures { OnOk result (LearnsUpToMultiple symbols.old symbols.new expression.now factor.now times) }
{
    match times {
        Some(greatest) => put_sum(symbols, -1, expression, greatest, factor),
        None => Ok(()),
    }
}

// Learns that a sum of two multiples is at least 0.
fn put_sum(
    symbols: &mut Symbols,
    times: i128,
    expression: &Linear,
    other: i128,
    factor: &Linear,
) -> Result<(), Memory>
    ensures { OnOk result (LearnsSum symbols.old symbols.new times expression.now other factor.now) }
{
    let sum = expression.combine(times, factor, other)?;
    match sum {
        Some(fact) => symbols.put(fact),
        None => Ok(()),
    }
}
