//! Sums and differences of expressions, with a new symbol where there is none.
ghost use Rattle.std.specs.Prelude.{◌+ℤ◌, ◌-ℤ◌, IfOk};
ghost use Rattle.analysis_values.specs.Steps.{GivesOf};

use contract::Memory;
use linear::Linear;
use symbols::Symbols;

/// The sum of two expressions, or a new symbol where it leaves 128 bits or has too many symbols.
pub(crate) fn sum(symbols: &mut Symbols, left: &Linear, right: &Linear) -> Result<Linear, Memory>
    ensures { IfOk result (GivesOf ◌+ℤ◌ symbols.old symbols.new left.now right.now) }
{
    let exact = left.plus(right)?;
    match exact {
        Some(number) => Ok(number),
        None => symbols.unknown(),
    }
}

/// The difference of two expressions, or a new symbol where it leaves 128 bits or has too many symbols.
pub(crate) fn difference(
    symbols: &mut Symbols,
    left: &Linear,
    right: &Linear,
) -> Result<Linear, Memory>
    ensures { IfOk result (GivesOf ◌-ℤ◌ symbols.old symbols.new left.now right.now) }
{
    let exact = left.minus(right)?;
    match exact {
        Some(number) => Ok(number),
        None => symbols.unknown(),
    }
}
