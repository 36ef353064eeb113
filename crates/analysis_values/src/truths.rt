//! What is known where a comparison is true, and in either of two cases.
ghost use Rattle.std.specs.Prelude.{IfOk, Some};
ghost use Rattle.analysis_values.specs.Steps.{KnowsWhere, LeadsEither, IsNoLess, IsLess, IsSame, IsOther};

use contract::{Memory, TryClone};
use linear::Linear;
use symbols::Symbols;

/// What is known where an expression is no less than another; none where that is shown to be impossible.
pub(crate) fn where_no_less(
    symbols: &Symbols,
    left: &Linear,
    right: &Linear,
) -> Result<Option<Symbols>, Memory>
    ensures { IfOk result (KnowsWhere IsNoLess symbols.now left.now right.now) }
{
    let mut more = symbols.try_clone()?;
    let difference = left.minus(right)?;
    match difference {
        Some(d) => {
            let possible = more.assume(&d)?;
            if possible { Ok(Some(more)) } else { Ok(None) }
        }
        None => Ok(Some(more)),
    }
}

/// What is known where an expression is less than another; none where that is shown to be impossible.
pub(crate) fn where_less(
    symbols: &Symbols,
    left: &Linear,
    right: &Linear,
) -> Result<Option<Symbols>, Memory>
    ensures { IfOk result (KnowsWhere IsLess symbols.now left.now right.now) }
{
    let above = left.raised(1)?;
    match above {
        Some(least) => where_no_less(symbols, right, &least),
        None => {
            let same = symbols.try_clone()?;
            Ok(Some(same))
        }
    }
}

/// What is known where two expressions are the same number; none where that is shown to be impossible.
pub(crate) fn where_same(
    symbols: &Symbols,
    left: &Linear,
    right: &Linear,
) -> Result<Option<Symbols>, Memory>
    ensures { IfOk result (KnowsWhere IsSame symbols.now left.now right.now) }
{
    let no_less = where_no_less(symbols, left, right)?;
    match no_less {
        Some(more) => {
            let same = where_no_less(&more, right, left)?;
            Ok(same)
        }
        None => Ok(None),
    }
}

/// What is known where two expressions aren't the same number; none where that is shown to be impossible.
pub(crate) fn where_other(
    symbols: &Symbols,
    left: &Linear,
    right: &Linear,
) -> Result<Option<Symbols>, Memory>
    ensures { IfOk result (KnowsWhere IsOther symbols.now left.now right.now) }
{
    let less = where_less(symbols, left, right)?;
    let greater = where_less(symbols, right, left)?;
    let both = joined(symbols, less, greater)?;
    match both {
        Some(more) => {
            let apart = distinguished(more, left, right)?;
            Ok(Some(apart))
        }
        None => Ok(None),
    }
}

// What is known where two expressions aren't the same number.
fn distinguished(symbols: Symbols, left: &Linear, right: &Linear) -> Result<Symbols, Memory>
    ensures { IfOk result (λ m. KnowsWhere IsOther symbols left.now right.now (Some m)) }
{
    let mut more = symbols;
    let difference = left.minus(right)?;
    match difference {
        Some(d) => {
            more.distinguish(d)?;
            Ok(more)
        }
        None => Ok(more),
    }
}

/// What is known in either of two cases that come from the same: the case that can be, where the other can't; and else
/// what holds in both.
pub(crate) fn joined(
    symbols: &Symbols,
    one: Option<Symbols>,
    other: Option<Symbols>,
) -> Result<Option<Symbols>, Memory>
    ensures { IfOk result (LeadsEither symbols.now one other) }
{
    match one {
        None => Ok(other),
        Some(first) => joined_with(symbols, first, other),
    }
}

// What is known where one case can be, or another as well.
fn joined_with(
    symbols: &Symbols,
    one: Symbols,
    other: Option<Symbols>,
) -> Result<Option<Symbols>, Memory>
    ensures { IfOk result (LeadsEither symbols.now (Some one) other) }
{
    match other {
        None => Ok(Some(one)),
        Some(another) => {
            let both = symbols.join(&one, &another)?;
            Ok(Some(both))
        }
    }
}
