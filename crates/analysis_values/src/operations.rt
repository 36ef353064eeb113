//! Operations on two numbers.
ghost use Rattle.std.specs.Prelude.{◌≡◌, IfOk, true};
ghost use Rattle.analysis_values.specs.Known.{known};
ghost use Rattle.analysis_values.specs.Answered.{StaysWhereSaid};
ghost use Rattle.analysis_values.specs.Steps.{GivesOf, GivesOpposite, result_of};

use crate::stays::stays;
use crate::sums::{difference, sum};
use crate::values::Evaluated;
use crate::view::View;
use contract::Memory;
use linear::Linear;
use symbols::Symbols;

/// What a value makes of the numbers of two others.
#[derive(Clone, Copy)]
pub(crate) enum Arithmetic {
    Sum,
    Difference,
    Product,
    Quotient,
}

// An expression for what an operation makes of two numbers.
fn number_of_two(
    symbols: &mut Symbols,
    operation: Arithmetic,
    left: &Linear,
    right: &Linear,
) -> Result<Linear, Memory>
    ensures { IfOk result (GivesOf (result_of operation) symbols.old symbols.new left.now right.now) }
{
    match operation {
        Arithmetic::Sum => sum(symbols, left, right),
        Arithmetic::Difference => difference(symbols, left, right),
        Arithmetic::Product => symbols.product(left, right),
        Arithmetic::Quotient => symbols.quotient(left, right),
    }
}

/// An expression for what an operation makes of two numbers, and whether it is shown to fit where others are.
pub(crate) fn operated(
    view: &View,
    symbols: &mut Symbols,
    operation: Arithmetic,
    left: &Linear,
    right: &Linear,
    others: bool,
) -> Result<Evaluated, Memory>
    ensures number { IfOk result (λ a. GivesOf (result_of operation) symbols.old symbols.new left.now right.now a.number) }
    ensures others { IfOk result (λ a. a.fits ≡ true → others ≡ true) }
    ensures fits { IfOk result (λ a. StaysWhereSaid (known symbols.new view.now) a.number a.fits) }
{
    let number = number_of_two(symbols, operation, left, right)?;
    within(view, symbols, number, others)
}

/// An expression for a number with its sign turned, and whether it is shown to fit where others are.
pub(crate) fn turned(
    view: &View,
    symbols: &mut Symbols,
    number: &Linear,
    others: bool,
) -> Result<Evaluated, Memory>
    ensures number { IfOk result (λ a. GivesOpposite symbols.old symbols.new number.now a.number) }
    ensures others { IfOk result (λ a. a.fits ≡ true → others ≡ true) }
    ensures fits { IfOk result (λ a. StaysWhereSaid (known symbols.new view.now) a.number a.fits) }
{
    let opposite = symbols.multiple(number, -1)?;
    within(view, symbols, opposite, others)
}

// An expression, and whether it is shown to fit where others are.
fn within(view: &View, symbols: &Symbols, number: Linear, others: bool) -> Result<Evaluated, Memory>
    ensures number { IfOk result (λ a. a.number ≡ number) }
    ensures others { IfOk result (λ a. a.fits ≡ true → others ≡ true) }
    ensures fits { IfOk result (λ a. StaysWhereSaid (known symbols.now view.now) a.number a.fits) }
{
    if !others {
        return Ok(Evaluated {
            number,
            fits: false,
        });
    }
    let fits = stays(view, symbols, &number)?;
    Ok(Evaluated { number, fits })
}
