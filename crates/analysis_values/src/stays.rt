//! Which numbers are shown to fit 128 bits.
ghost use Rattle.std.specs.Prelude.{◌≡◌, IfOk, true};
ghost use Rattle.analysis_values.specs.Known.{known};
ghost use Rattle.analysis_values.specs.Answered.{StaysWhereSaid};
ghost use Rattle.analysis_values.specs.Steps.{IsFrom128, StaysAbove};

use crate::view::View;
use contract::Memory;
use linear::{Bounds, Linear};
use symbols::Symbols;

// The times that JSON can write.
const WRITTEN: Bounds = Bounds {
    least: Some(-9_223_372_036_854_775_808),
    greatest: Some(9_223_372_036_854_775_807),
};

/// Whether an expression is shown to fit 128 bits, in runs whose times JSON can write. A number is kept in them.
pub(crate) fn stays(view: &View, symbols: &Symbols, number: &Linear) -> Result<bool, Memory>
    ensures { IfOk result (StaysWhereSaid (known symbols.now view.now) number.now) }
{
    let whole = number.is_number();
    if whole {
        // touch: the number has 128 bits
        let _constant = number.constant();
        return Ok(true);
    }
    let least = view.number(-1);
    let opposite = least.minus(number)?;
    match opposite {
        Some(other) => both_stay(view.times(), symbols, number, &other),
        None => Ok(false),
    }
}

// Whether two expressions are shown to be no less than some number of 128 bits: as they are, or where times have 64 bits.
fn both_stay(
    times: &[usize],
    symbols: &Symbols,
    left: &Linear,
    right: &Linear,
) -> Result<bool, Memory>
    ensures { IfOk result (λ said. said ≡ true → StaysAbove times.now symbols.now left.now × StaysAbove times.now symbols.now right.now) }
{
    let here = have_least(symbols, left, right);
    if here {
        return Ok(true);
    }
    let written = symbols.within(times, WRITTEN)?;
    Ok(have_least(&written, left, right))
}

// Whether there are numbers that two expressions are shown not to be below.
fn have_least(symbols: &Symbols, left: &Linear, right: &Linear) -> bool
    ensures { result ≡ true → IsFrom128 symbols.now left.now × IsFrom128 symbols.now right.now }
{
    has_least(symbols, left) && has_least(symbols, right)
}

// Whether there is a number that an expression is shown not to be below.
fn has_least(symbols: &Symbols, number: &Linear) -> bool
    ensures { result ≡ true → IsFrom128 symbols.now number.now }
{
    match symbols.some_least(number) {
        Some(bound) => {
            // touch: the number has 128 bits
            let _least = bound;
            true
        }
        None => false,
    }
}
