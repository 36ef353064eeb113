//! The numbers of values, over what is known of symbols, in a view.
ghost use Rattle.std.specs.Prelude.{◌≡◌, ◌&&◌, IfOk};
ghost use Rattle.contract.specs.Tree.{value_tree, available_money, constant, neg_value, choice_value, time_interval_start, time_interval_end, use_value};
ghost use Rattle.analysis_values.specs.Steps.{IsEvaluated, tree_of, EvaluatesOperands, BothFitWhereSaid};

use crate::conditionals::one_of_two;
use crate::operations::{Arithmetic, operated, turned};
use crate::view::View;
use contract::{Boxed, ChoiceId, Memory, Party, Text, Token, TryClone, Value};
use linear::Linear;
use symbols::Symbols;

/// An expression for the number of a value, and whether all numbers that are visited on the way are shown to fit 128
/// bits in runs whose times JSON can write.
#[derive(Drop)]
pub struct Evaluated {
    pub number: Linear,
    pub fits: bool,
}

/// Expressions for the numbers of two values, and whether the numbers on the way are shown to fit.
#[derive(Drop)]
pub(crate) struct Operands {
    pub(crate) left: Linear,
    pub(crate) right: Linear,
    pub(crate) fits: bool,
}

/// An expression for the number of a value.
#[cycle(values)]
pub(crate) fn value_in(
    view: &View,
    symbols: &mut Symbols,
    value: &Value,
) -> Result<Evaluated, Memory>
    ensures { IfOk result (IsEvaluated symbols.old view.now (value_tree value.now) symbols.new) }
{
    match value {
        Value::AvailableMoney(owner, token) => money_of(view, symbols, owner, token),
        Value::Constant(n) => number_of(view, symbols, *n),
        Value::NegValue(a) => opposite_of(view, symbols, a),
        Value::AddValue(a, b) => of_two(view, symbols, Arithmetic::Sum, a, b),
        Value::SubValue(a, b) => of_two(view, symbols, Arithmetic::Difference, a, b),
        Value::MulValue(a, b) => of_two(view, symbols, Arithmetic::Product, a, b),
        Value::DivValue(a, b) => of_two(view, symbols, Arithmetic::Quotient, a, b),
        Value::ChoiceValue(id) => choice_of(view, symbols, id),
        Value::TimeIntervalStart => start_of(view, symbols),
        Value::TimeIntervalEnd => end_of(view, symbols),
        Value::UseValue(name) => bound_of(view, symbols, name),
        Value::Cond(condition, a, b) => one_of_two(view, symbols, condition, a, b),
    }
}

// What an account holds.
fn money_of(
    view: &View,
    symbols: &Symbols,
    owner: &Party,
    token: &Token,
) -> Result<Evaluated, Memory>
    ensures { IfOk result (IsEvaluated symbols.now view.now (available_money owner.now token.now) symbols.now) }
{
    let _symbols = symbols;
    let number = view.held(owner, token)?;
    Ok(Evaluated { number, fits: true })
}

// A number.
fn number_of(view: &View, symbols: &Symbols, value: i128) -> Result<Evaluated, Memory>
    ensures { IfOk result (IsEvaluated symbols.now view.now (constant value) symbols.now) }
{
    let _symbols = symbols;
    let number = view.number(value);
    Ok(Evaluated { number, fits: true })
}

// The number that was chosen.
fn choice_of(view: &View, symbols: &Symbols, id: &ChoiceId) -> Result<Evaluated, Memory>
    ensures { IfOk result (IsEvaluated symbols.now view.now (choice_value id.now) symbols.now) }
{
    let _symbols = symbols;
    let number = view.chosen(id)?;
    Ok(Evaluated { number, fits: true })
}

// The value that is bound to a name.
fn bound_of(view: &View, symbols: &Symbols, name: &Text) -> Result<Evaluated, Memory>
    ensures { IfOk result (IsEvaluated symbols.now view.now (use_value name.now) symbols.now) }
{
    let _symbols = symbols;
    let number = view.bound_to(name)?;
    Ok(Evaluated { number, fits: true })
}

// The start of the interval.
fn start_of(view: &View, symbols: &Symbols) -> Result<Evaluated, Memory>
    ensures { IfOk result (IsEvaluated symbols.now view.now time_interval_start symbols.now) }
{
    let _symbols = symbols;
    let number = view.start().try_clone()?;
    Ok(Evaluated { number, fits: true })
}

// The end of the interval.
fn end_of(view: &View, symbols: &Symbols) -> Result<Evaluated, Memory>
    ensures { IfOk result (IsEvaluated symbols.now view.now time_interval_end symbols.now) }
{
    let _symbols = symbols;
    let number = view.end().try_clone()?;
    Ok(Evaluated { number, fits: true })
}

// A value with its sign turned.
#[cycle(values)]
fn opposite_of(
    view: &View,
    symbols: &mut Symbols,
    value: &Boxed<Value>,
) -> Result<Evaluated, Memory>
    ensures { IfOk result (IsEvaluated symbols.old view.now (neg_value (value_tree value.now)) symbols.new) }
{
    let inner = value.get();
    let operand = value_in(view, symbols, inner)?;
    turned(view, symbols, &operand.number, operand.fits)
}

// What an operation makes of two values.
#[cycle(values)]
fn of_two(
    view: &View,
    symbols: &mut Symbols,
    operation: Arithmetic,
    left: &Boxed<Value>,
    right: &Boxed<Value>,
) -> Result<Evaluated, Memory>
    ensures { IfOk result (IsEvaluated symbols.old view.now (tree_of operation (value_tree left.now) (value_tree right.now)) symbols.new) }
{
    let operands = both_values(view, symbols, left, right)?;
    operated(
        view,
        symbols,
        operation,
        &operands.left,
        &operands.right,
        operands.fits,
    )
}

/// Expressions for the numbers of two values, from the left.
#[cycle(values)]
pub(crate) fn both_values(
    view: &View,
    symbols: &mut Symbols,
    left: &Boxed<Value>,
    right: &Boxed<Value>,
) -> Result<Operands, Memory>
    ensures number { IfOk result (EvaluatesOperands view.now symbols.old (value_tree left.now) (value_tree right.now) symbols.new) }
    ensures fits { IfOk result (λ p. BothFitWhereSaid view.now symbols.old (value_tree left.now) (value_tree right.now) p.fits) }
{
    let one = left.get();
    let first = value_in(view, symbols, one)?;
    let another = right.get();
    let second = value_in(view, symbols, another)?;
    let fits = both(first.fits, second.fits);
    Ok(Operands {
        left: first.number,
        right: second.number,
        fits,
    })
}

/// Whether both are true.
pub(crate) fn both(left: bool, right: bool) -> bool
    ensures { result ≡ (left && right) }
{
    left && right
}
