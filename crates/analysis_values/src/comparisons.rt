//! Comparisons of two numbers.
ghost use Rattle.std.specs.Prelude.{◌≡◌, IfOk};
ghost use Rattle.analysis_values.specs.Steps.{KnowsWhere, HoldsOf, FailsOf, Compares, Leaves};

use crate::observations::Truths;
use crate::truths::{where_less, where_no_less, where_other, where_same};
use crate::values::Operands;
use contract::{Memory, TryClone};
use linear::Linear;
use symbols::Symbols;

/// How an observation compares the numbers of two values.
#[derive(Clone, Copy)]
pub(crate) enum Comparison {
    NoLess,
    Greater,
    Less,
    NoGreater,
    Same,
}

/// What is known where a comparison of two expressions is true; none where that is shown to be impossible.
pub(crate) fn where_true(
    symbols: &Symbols,
    comparison: Comparison,
    left: &Linear,
    right: &Linear,
) -> Result<Option<Symbols>, Memory>
    ensures { IfOk result (KnowsWhere (HoldsOf comparison) symbols.now left.now right.now) }
{
    match comparison {
        Comparison::NoLess => where_no_less(symbols, left, right),
        Comparison::Greater => where_less(symbols, right, left),
        Comparison::Less => where_less(symbols, left, right),
        Comparison::NoGreater => where_no_less(symbols, right, left),
        Comparison::Same => where_same(symbols, left, right),
    }
}

/// What is known where it is false; none where that is shown to be impossible.
pub(crate) fn where_false(
    symbols: &Symbols,
    comparison: Comparison,
    left: &Linear,
    right: &Linear,
) -> Result<Option<Symbols>, Memory>
    ensures { IfOk result (KnowsWhere (FailsOf comparison) symbols.now left.now right.now) }
{
    match comparison {
        Comparison::NoLess => where_less(symbols, left, right),
        Comparison::Greater => where_no_less(symbols, right, left),
        Comparison::Less => where_no_less(symbols, left, right),
        Comparison::NoGreater => where_less(symbols, right, left),
        Comparison::Same => where_other(symbols, left, right),
    }
}

/// What a comparison of two values leaves behind, of which the numbers have expressions where more is known.
pub(crate) fn compared(
    symbols: &mut Symbols,
    there: Symbols,
    comparison: Comparison,
    operands: &Operands,
) -> Result<Truths, Memory>
    ensures fits { IfOk result (λ t. t.fits ≡ operands.now.fits) }
    ensures leaves { IfOk result (Compares comparison symbols.old there operands.now symbols.new) }
{
    let if_true = where_true(&there, comparison, &operands.left, &operands.right)?;
    let if_false = where_false(&there, comparison, &operands.left, &operands.right)?;
    settled(symbols, there, operands.fits, if_true, if_false)
}

// Where the values made new unknowns and only one truth can be, what was known before is left.
fn settled(
    symbols: &mut Symbols,
    there: Symbols,
    fits: bool,
    if_true: Option<Symbols>,
    if_false: Option<Symbols>,
) -> Result<Truths, Memory>
    ensures fits { IfOk result (λ t. t.fits ≡ fits) }
    ensures leaves { IfOk result (λ t. Leaves symbols.old there if_true if_false symbols.new t.if_true t.if_false) }
{
    match (there.count() > symbols.count(), if_true, if_false) {
        (true, Some(_), None) => {
            let same = symbols.try_clone()?;
            Ok(Truths {
                fits,
                if_true: Some(same),
                if_false: None,
            })
        }
        (true, None, Some(_)) => {
            let same = symbols.try_clone()?;
            Ok(Truths {
                fits,
                if_true: None,
                if_false: Some(same),
            })
        }
        (_, if_true, if_false) => {
            *symbols = there;
            Ok(Truths {
                fits,
                if_true,
                if_false,
            })
        }
    }
}
