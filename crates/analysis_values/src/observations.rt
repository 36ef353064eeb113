//! The truths of observations, over what is known of symbols, in a view.
ghost use Rattle.std.specs.Prelude.{◌≡◌, IfOk, Some, true, cond};
ghost use Rattle.contract.specs.Tree.{value_tree, observation_tree, not_obs, chose_something, true_obs, false_obs};
ghost use Rattle.analysis_values.specs.Steps.{IsObserved, ObservesIn, test_of};
ghost use Rattle.analysis_values.specs.Junctions.{joined_by};

use crate::comparisons::{Comparison, compared};
use crate::junctions::{Junction, decided, side};
use crate::values::both_values;
use crate::view::View;
use contract::{Boxed, ChoiceId, Memory, Observation, TryClone, Value};
use symbols::Symbols;

/// What is known of symbols where an observation is true, and where it is false; and whether the numbers that are
/// visited on the way are shown to fit.
#[derive(Drop)]
pub(crate) struct Truths {
    pub(crate) fits: bool,
    pub(crate) if_true: Option<Symbols>,
    pub(crate) if_false: Option<Symbols>,
}

/// What is known where an observation is true, and where it is false, which both come from what is known once the numbers that
/// are compared have expressions.
#[cycle(values)]
pub(crate) fn truth_in(
    view: &View,
    symbols: &mut Symbols,
    observation: &Observation,
) -> Result<Truths, Memory>
    ensures { IfOk result (IsObserved symbols.old view.now (observation_tree observation.now) symbols.new) }
{
    match observation {
        Observation::AndObs(a, b) => of_junction(view, symbols, Junction::And, a, b),
        Observation::OrObs(a, b) => of_junction(view, symbols, Junction::Or, a, b),
        Observation::NotObs(a) => none_of(view, symbols, a),
        Observation::ChoseSomething(id) => chosen_of(view, symbols, id),
        Observation::ValueGE(a, b) => compare(view, symbols, Comparison::NoLess, a, b),
        Observation::ValueGT(a, b) => compare(view, symbols, Comparison::Greater, a, b),
        Observation::ValueLT(a, b) => compare(view, symbols, Comparison::Less, a, b),
        Observation::ValueLE(a, b) => compare(view, symbols, Comparison::NoGreater, a, b),
        Observation::ValueEQ(a, b) => compare(view, symbols, Comparison::Same, a, b),
        Observation::TrueObs => always_of(view, symbols),
        Observation::FalseObs => never_of(view, symbols),
    }
}

// A comparison of two values.
#[cycle(values)]
fn compare(
    view: &View,
    symbols: &mut Symbols,
    comparison: Comparison,
    left: &Boxed<Value>,
    right: &Boxed<Value>,
) -> Result<Truths, Memory>
    ensures { IfOk result (IsObserved symbols.old view.now (test_of comparison (value_tree left.now) (value_tree right.now)) symbols.new) }
{
    let mut there = symbols.try_clone()?;
    let operands = both_values(view, &mut there, left, right)?;
    compared(symbols, there, comparison, &operands)
}

// It is false.
#[cycle(values)]
fn none_of(
    view: &View,
    symbols: &mut Symbols,
    observation: &Boxed<Observation>,
) -> Result<Truths, Memory>
    ensures { IfOk result (IsObserved symbols.old view.now (not_obs (observation_tree observation.now)) symbols.new) }
{
    let inner = observation.get();
    let truths = truth_in(view, symbols, inner)?;
    Ok(Truths {
        fits: truths.fits,
        if_true: truths.if_false,
        if_false: truths.if_true,
    })
}

// Two observations that are joined: the second is looked at where the first doesn't decide.
#[cycle(values)]
fn of_junction(
    view: &View,
    symbols: &mut Symbols,
    junction: Junction,
    left: &Boxed<Observation>,
    right: &Boxed<Observation>,
) -> Result<Truths, Memory>
    ensures { IfOk result (IsObserved symbols.old view.now (joined_by junction left.now right.now) symbols.new) }
{
    let outer = left.get();
    let truths = truth_in(view, symbols, outer)?;
    let first = side(junction, truths);
    let Truths {
        fits,
        if_true,
        if_false,
    } = first;
    let second = truth_where(view, if_true, right)?;
    decided(symbols, junction, fits, if_false, second)
}

// What is known where an observation is true, and where it is false, where more is known, if that can be.
#[cycle(values)]
fn truth_where(
    view: &View,
    symbols: Option<Symbols>,
    observation: &Boxed<Observation>,
) -> Result<Option<Truths>, Memory>
    ensures { IfOk result (ObservesIn view.now symbols (observation_tree observation.now)) }
{
    match symbols {
        None => Ok(None),
        Some(there) => {
            let mut more = there;
            let inner = observation.get();
            let truths = truth_in(view, &mut more, inner)?;
            Ok(Some(truths))
        }
    }
}

// A number was chosen.
fn chosen_of(view: &View, symbols: &Symbols, id: &ChoiceId) -> Result<Truths, Memory>
    ensures { IfOk result (IsObserved symbols.now view.now (chose_something id.now) symbols.now) }
{
    let same = symbols.try_clone()?;
    let truth = view.has_choice(id);
    Ok(known_truth(same, truth))
}

// Always true.
fn always_of(view: &View, symbols: &Symbols) -> Result<Truths, Memory>
    ensures { IfOk result (IsObserved symbols.now view.now true_obs symbols.now) }
{
    let _view = view;
    let same = symbols.try_clone()?;
    Ok(known_truth(same, true))
}

// Never true.
fn never_of(view: &View, symbols: &Symbols) -> Result<Truths, Memory>
    ensures { IfOk result (IsObserved symbols.now view.now false_obs symbols.now) }
{
    let _view = view;
    let same = symbols.try_clone()?;
    Ok(known_truth(same, false))
}

// A truth that is known.
fn known_truth(symbols: Symbols, truth: bool) -> Truths
    ensures fits { result.fits ≡ true }
    ensures truths { cond truth result.if_true result.if_false ≡ Some symbols }
{
    if truth {
        Truths {
            fits: true,
            if_true: Some(symbols),
            if_false: None,
        }
    } else {
        Truths {
            fits: true,
            if_true: None,
            if_false: Some(symbols),
        }
    }
}
