//! The number of one of two values.
ghost use Rattle.std.specs.Prelude.{◌≡◌, ◌&&◌, IfOk, Some, None};
ghost use Rattle.analysis_values.specs.Steps.{EvaluatesEither};

use crate::values::{Evaluated, both};
use contract::Memory;
use linear::Linear;
use symbols::{Symbols, number_of_either};

/// An expression for the number of a value where an observation is true, or where it is false, and what is known there.
#[derive(Drop)]
pub(crate) struct Counted {
    pub(crate) symbols: Symbols,
    pub(crate) number: Linear,
    pub(crate) fits: bool,
}

/// The number of the first value or of the second, of which each may count or not.
pub(crate) fn of_either(
    symbols: &mut Symbols,
    one: Option<Counted>,
    other: Option<Counted>,
    others: bool,
) -> Result<Evaluated, Memory>
    ensures { IfOk result (λ a. EvaluatesEither symbols.old one other others symbols.new a.number a.fits) }
{
    match one {
        None => second_alone(symbols, other, others),
        Some(first) => first_counts(symbols, first, other, others),
    }
}

// The number of the second value, where the first never counts.
fn second_alone(
    symbols: &mut Symbols,
    other: Option<Counted>,
    others: bool,
) -> Result<Evaluated, Memory>
    ensures { IfOk result (λ a. EvaluatesEither symbols.old None other others symbols.new a.number a.fits) }
{
    match other {
        None => {
            let number = symbols.unknown()?;
            Ok(Evaluated {
                number,
                fits: others,
            })
        }
        Some(second) => Ok(alone(symbols, second, others)),
    }
}

// The number of the first value, or of the second where that may count.
fn first_counts(
    symbols: &mut Symbols,
    first: Counted,
    other: Option<Counted>,
    others: bool,
) -> Result<Evaluated, Memory>
    ensures { IfOk result (λ a. EvaluatesEither symbols.old (Some first) other others symbols.new a.number a.fits) }
{
    match other {
        None => Ok(alone(symbols, first, others)),
        Some(second) => of_both(symbols, &first, &second, others),
    }
}

// The number of the one value that counts, and what is known there.
fn alone(symbols: &mut Symbols, value: Counted, others: bool) -> Evaluated
    ensures symbols { symbols.new ≡ value.symbols }
    ensures number { result.number ≡ value.number }
    ensures fits { result.fits ≡ (others && value.fits) }
{
    let Counted {
        symbols: more,
        number,
        fits,
    } = value;
    *symbols = more;
    let all = both(others, fits);
    Evaluated { number, fits: all }
}

// The number of one of two values that may both count.
fn of_both(
    symbols: &mut Symbols,
    first: &Counted,
    second: &Counted,
    others: bool,
) -> Result<Evaluated, Memory>
    ensures { IfOk result (λ a. EvaluatesEither symbols.old (Some first.now) (Some second.now) others symbols.new a.number a.fits) }
{
    let number = number_of_either(
        symbols,
        &first.symbols,
        &first.number,
        &second.symbols,
        &second.number,
    )?;
    let either = both(first.fits, second.fits);
    let fits = both(others, either);
    Ok(Evaluated { number, fits })
}
