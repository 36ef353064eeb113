//! The truth of observations.
ghost use Rattle.std.specs.Prelude.{◌≡◌, Some, IfOk};
ghost use Rattle.contract.specs.Tree.{observation_tree};
ghost use Rattle.analysis_walk.specs.Conclusions.{ObservesSo};
ghost use Rattle.analysis_values.specs.Known.{IsDescribed, known_with};
ghost use Rattle.analysis_values.specs.Answered.{branches_of, Decides, Unites};

use crate::known::Known;
use crate::observations::truth_in;
use crate::truths::joined;
use crate::view::View;
use contract::{Memory, Observation, TryClone};
use symbols::Symbols;

/// What is known where an observation is true, and where it is false: none where it can't be so. And whether all
/// numbers that are visited on the way are shown to fit 128 bits, in runs whose times JSON can write.
#[derive(Drop)]
pub struct Observed {
    pub fits: bool,
    pub if_true: Option<Known>,
    pub if_false: Option<Known>,
}

/// What is known where an observation is true and where it is false, of the same view.
pub fn observe(known: &Known, observation: &Observation) -> Result<Observed, Memory>
    ensures branches { IfOk result (λ b. Decides known.now (observation_tree observation.now) b.if_true b.if_false) }
    ensures conclusion { IfOk result (λ b. ObservesSo IsDescribed known.now (observation_tree observation.now) (branches_of b)) }
{
    let seen = known.view();
    let mut symbols = known.symbols().try_clone()?;
    let truths = truth_in(seen, &mut symbols, observation)?;
    let if_true = in_view(seen, truths.if_true)?;
    let if_false = in_view(seen, truths.if_false)?;
    Ok(Observed {
        fits: truths.fits,
        if_true,
        if_false,
    })
}

/// What is known in either of two cases that come from the same: the case that can be, where one can't, and else what
/// both have, and what one of them has and the other shows.
pub fn either(
    known: &Known,
    one: Option<Known>,
    other: Option<Known>,
) -> Result<Option<Known>, Memory>
    ensures { IfOk result (Unites known.now one other) }
{
    match one {
        None => Ok(other),
        Some(first) => united(known, first, other),
    }
}

// What is known where one case can be, or another as well.
fn united(known: &Known, one: Known, other: Option<Known>) -> Result<Option<Known>, Memory>
    ensures { IfOk result (Unites known.now (Some one) other) }
{
    match other {
        None => Ok(Some(one)),
        Some(another) => {
            let base = known.symbols();
            let left = one.symbols();
            let right = another.symbols();
            let symbols = base.join(left, right)?;
            let seen = known.view();
            let view = seen.try_clone()?;
            Ok(Some(Known { symbols, view }))
        }
    }
}

// What is known of symbols, with a view.
fn in_view(seen: &View, symbols: Option<Symbols>) -> Result<Option<Known>, Memory>
    ensures { IfOk result (λ o. o ≡ known_with seen.now symbols) }
{
    match symbols {
        None => Ok(None),
        Some(symbols) => {
            let view = seen.try_clone()?;
            Ok(Some(Known { symbols, view }))
        }
    }
}
