//! Expressions that aren't 0.
ghost use Rattle.std.specs.Prelude.{◌≡◌, ℕ, pos, ◌+ℤ◌, ◌*ℤ◌, IfOk, true};
ghost use Rattle.linear.specs.Linear.{Valuation, number_at};
ghost use Rattle.symbols.specs.Symbols.{AreApart};
ghost use Rattle.symbols.specs.Held.{IsSharpened, Cancels, RulesOut, IsNever};

use evaluation::collections::{Memory, TryClone};
use linear::Linear;

// Whether they may cancel: as many terms, the same newest symbol, and constants that do.
fn may_cancel(expression: &Linear, other: &Linear, factor: i128) -> bool {
    let left = expression.terms();
    let right = other.terms();
    if left.len() != right.len() {
        return false;
    }
    if left.len() > 0 && left[0].0 != right[0].0 {
        return false;
    }
    let constant = other.constant().wrapping_mul(factor);
    constant.wrapping_add(expression.constant()) == 0
}

/// Whether the terms of an expression and a multiple of another's cancel, and their constants.
pub(crate) fn cancels(expression: &Linear, other: &Linear, factor: i128) -> Result<bool, Memory>
    ensures { IfOk result (λ yes. yes ≡ true → Cancels expression.now factor other.now) }
{
    let may = may_cancel(expression, other, factor);
    if !may {
        return Ok(false);
    }
    match expression.combine(1, other, factor)? {
        Some(rest) => Ok(rest.is_zero()),
        None => Ok(false),
    }
}

// Whether an expression is another or its opposite, so that it isn't 0 where the other isn't.
fn rules_out(known: &Linear, expression: &Linear) -> Result<bool, Memory>
    ensures { IfOk result (λ yes. yes ≡ true → RulesOut known.now expression.now) }
{
    let same = cancels(known, expression, -1)?;
    if same {
        return Ok(true);
    }
    let opposite = cancels(known, expression, 1)?;
    Ok(opposite)
}

/// Whether an expression is among those that aren't 0, or its opposite.
pub(crate) fn is_apart(apart: &[Linear], expression: &Linear) -> Result<bool, Memory>
    ensures { IfOk result (λ yes. yes ≡ true → IsNever apart.now expression.now) }
{
    for d in apart {
        let yes = rules_out(d, expression)?;
        if yes {
            return Ok(true);
        }
    }
    Ok(false)
}

/// An expression that is at least 0, or what is one less and at least 0 as well.
pub(crate) fn sharpened(apart: &[Linear], expression: &Linear) -> Result<Linear, Memory>
    ensures { IfOk result (IsSharpened apart.now expression.now) }
{
    if is_apart(apart, expression)? {
        if let Some(less) = expression.raised(-1)? {
            return Ok(less);
        }
    }
    let same = expression.try_clone()?;
    Ok(same)
}
