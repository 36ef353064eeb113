//! The number of a `Cond`: of one of two values, by an observation that is taken apart.
ghost use Rattle.std.specs.Prelude.{IfOk, OnOk};
ghost use Rattle.contract.specs.Tree.{observation_tree};
ghost use Rattle.analysis_values.specs.Steps.{IsEvaluated, LeadsOn, EvaluatesIn};
ghost use Rattle.analysis_values.specs.Branches.{opposite_of, both_of, one_of, cond_by, branch_tree, branches_by};

use crate::cases::{Counted, of_either};
use crate::observations::{Truths, truth_in};
use crate::plain::is_plain;
use crate::values::{Evaluated, value_in};
use crate::view::View;
use contract::{Boxed, Memory, Observation, Value};
use symbols::Symbols;

// The most parts of a Cond's observation (comparisons, and what joins them) that it is taken apart to: 8.
const MOST_JOINED: u32 = 8;

/// What a Cond is where an observation is true, or where it is false: one of its values, or a Cond of what is left of the
/// observation, and how many parts of that are taken apart.
#[derive(Clone, Copy)]
pub(crate) enum Branch<'a> {
    Value(&'a Boxed<Value>),
    Cond(&'a Boxed<Observation>, &'a Boxed<Value>, &'a Boxed<Value>, u32),
}

/// The number of the first value where an observation is true, and else that of the second.
#[cycle(values)]
pub(crate) fn one_of_two(
    view: &View,
    symbols: &mut Symbols,
    condition: &Boxed<Observation>,
    first: &Boxed<Value>,
    second: &Boxed<Value>,
) -> Result<Evaluated, Memory>
    ensures { IfOk result (IsEvaluated symbols.old view.now (cond_by (observation_tree condition.now) first.now second.now) symbols.new) }
{
    name_operations(view, symbols, first)?;
    name_operations(view, symbols, second)?;
    let inner = condition.get();
    taken_apart(view, symbols, inner, first, second, MOST_JOINED)
}

// Takes an observation of so many parts apart at its first side, which is looked at as a whole, and goes on with the other: a
// Cond of comparisons that are first sides, and of the last, is known again where it stands another time. What stands in two
// Conds is a plain value.
#[cycle(values)]
fn taken_apart(
    view: &View,
    symbols: &mut Symbols,
    condition: &Observation,
    first: &Boxed<Value>,
    second: &Boxed<Value>,
    joined: u32,
) -> Result<Evaluated, Memory>
    ensures { IfOk result (IsEvaluated symbols.old view.now (cond_by (observation_tree condition.now) first.now second.now) symbols.new) }
{
    let one = Branch::Value(first);
    let other = Branch::Value(second);
    if joined == 0 {
        return by_truth(view, symbols, condition, one, other);
    }
    let rest = joined - 1;
    match condition {
        Observation::NotObs(a) => by_opposite(view, symbols, a, first, second, rest),
        Observation::AndObs(a, b) => {
            if is_plain(second.get()) {
                by_both(view, symbols, a, b, first, second, rest)
            } else {
                by_truth(view, symbols, condition, one, other)
            }
        }
        Observation::OrObs(a, b) => {
            if is_plain(first.get()) {
                by_one(view, symbols, a, b, first, second, rest)
            } else {
                by_truth(view, symbols, condition, one, other)
            }
        }
        _ => by_truth(view, symbols, condition, one, other),
    }
}

// The first value is the number where an observation is false.
#[cycle(values)]
fn by_opposite(
    view: &View,
    symbols: &mut Symbols,
    condition: &Boxed<Observation>,
    first: &Boxed<Value>,
    second: &Boxed<Value>,
    joined: u32,
) -> Result<Evaluated, Memory>
    ensures { IfOk result (IsEvaluated symbols.old view.now (cond_by (opposite_of condition.now) first.now second.now) symbols.new) }
{
    let inner = condition.get();
    taken_apart(view, symbols, inner, second, first, joined)
}

// .. where two observations are true.
#[cycle(values)]
fn by_both(
    view: &View,
    symbols: &mut Symbols,
    left: &Boxed<Observation>,
    right: &Boxed<Observation>,
    first: &Boxed<Value>,
    second: &Boxed<Value>,
    joined: u32,
) -> Result<Evaluated, Memory>
    ensures { IfOk result (IsEvaluated symbols.old view.now (cond_by (both_of left.now right.now) first.now second.now) symbols.new) }
{
    let inner = left.get();
    let rest = Branch::Cond(right, first, second, joined);
    by_truth(view, symbols, inner, rest, Branch::Value(second))
}

// .. where one of two observations is true.
#[cycle(values)]
fn by_one(
    view: &View,
    symbols: &mut Symbols,
    left: &Boxed<Observation>,
    right: &Boxed<Observation>,
    first: &Boxed<Value>,
    second: &Boxed<Value>,
    joined: u32,
) -> Result<Evaluated, Memory>
    ensures { IfOk result (IsEvaluated symbols.old view.now (cond_by (one_of left.now right.now) first.now second.now) symbols.new) }
{
    let inner = left.get();
    let rest = Branch::Cond(right, first, second, joined);
    by_truth(view, symbols, inner, Branch::Value(first), rest)
}

// One of two branches, by the truth of an observation as a whole.
#[cycle(values)]
fn by_truth(
    view: &View,
    symbols: &mut Symbols,
    condition: &Observation,
    one: Branch<'_>,
    other: Branch<'_>,
) -> Result<Evaluated, Memory>
    ensures { IfOk result (IsEvaluated symbols.old view.now (branches_by condition.now one.entry other.entry) symbols.new) }
{
    let truths = truth_in(view, symbols, condition)?;
    let Truths {
        fits,
        if_true,
        if_false,
    } = truths;
    let first = branch_where(view, if_true, one)?;
    let second = branch_where(view, if_false, other)?;
    of_either(symbols, first, second, fits)
}

// The number of a branch where more is known, if that can be.
#[cycle(values)]
fn branch_where(
    view: &View,
    symbols: Option<Symbols>,
    branch: Branch<'_>,
) -> Result<Option<Counted>, Memory>
    ensures { IfOk result (EvaluatesIn view.now symbols (branch_tree branch.entry)) }
{
    match symbols {
        None => Ok(None),
        Some(there) => {
            let mut more = there;
            let evaluated = branch_in(view, &mut more, branch)?;
            Ok(Some(Counted {
                symbols: more,
                number: evaluated.number,
                fits: evaluated.fits,
            }))
        }
    }
}

// The number of a branch.
#[cycle(values)]
fn branch_in(view: &View, symbols: &mut Symbols, branch: Branch<'_>) -> Result<Evaluated, Memory>
    ensures { IfOk result (IsEvaluated symbols.old view.now (branch_tree branch.entry) symbols.new) }
{
    match branch {
        Branch::Value(value) => value_in(view, symbols, value.get()),
        Branch::Cond(condition, first, second, joined) => {
            taken_apart(view, symbols, condition.get(), first, second, joined)
        }
    }
}

// Gives the products and quotients of a plain value symbols where it stands, so that each branch of a Cond has the same ones.
#[cycle(values)]
fn name_operations(view: &View, symbols: &mut Symbols, value: &Boxed<Value>) -> Result<(), Memory>
    ensures { OnOk result (LeadsOn view.now symbols.old symbols.new) }
{
    let inner = value.get();
    let plain = is_plain(inner);
    if plain {
        value_in(view, symbols, inner)?;
    }
    Ok(())
}
