//! The numbers of values.
ghost use Rattle.std.specs.Prelude.{IfOk};
ghost use Rattle.contract.specs.Tree.{value_tree};
ghost use Rattle.analysis_values.specs.Answered.{Evaluates, FitsWhereSaid};

use crate::known::Known;
use crate::values::{Evaluated, value_in};
use contract::{Memory, Value};

/// An expression for the number of a value, over what is known, which may have new symbols then; and whether the
/// numbers on the way are shown to fit 128 bits, in runs whose times JSON can write.
pub fn evaluate(known: &mut Known, value: &Value) -> Result<Evaluated, Memory>
    ensures number { IfOk result (λ a. Evaluates known.old (value_tree value.now) known.new a.number) }
    ensures fits { IfOk result (λ a. FitsWhereSaid known.old (value_tree value.now) a.fits) }
{
    let a = value_in(&known.view, &mut known.symbols, value)?;
    Ok(a)
}
