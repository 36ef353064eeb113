//! What a way says of the numbers that are chosen on it.
use crate::weights::of_bounds;
use crate::work::spend;
use analysis_spec::PathStep;
use contract::{Action, Bound, Case, ChoiceId, Contract, Memory, Observation, Value};
use std::alloc::Global;

// How many of the choices before a comparison are looked at.
const MOST_CHOICES: usize = 16;

// How often bounds and earlier cases are gone through.
const ROUNDS: usize = 4;

/// The least and the greatest number of a choice with which a run can go the way, as far as this is known.
#[derive(Clone, Copy)]
pub struct Ends {
    pub least: i128,
    pub most: i128,
}

/// A choice on the way: the cases of its When, which of them it takes, and the ends of its number.
#[derive(Clone, Copy)]
pub(crate) struct Chosen<'c> {
    step: usize,
    id: &'c ChoiceId,
    bounds: &'c [Bound],
    earlier: &'c [Case],
    ends: Ends,
}

/// Notes what a step of the way, by its place, says of numbers that are chosen: those of a choice that it takes, and those that
/// are compared where it goes on.
pub(crate) fn note_step<'c>(
    chosen: &mut Vec<Chosen<'c>>,
    contract: &'c Contract,
    step: PathStep,
    place: usize,
    left: &mut u64,
) -> Result<(), Memory> {
    match (contract, step) {
        (Contract::If(observation, _, _), _) => {
            let truth = matches!(step, PathStep::Then);
            narrow(chosen, observation, truth, left);
            Ok(())
        }
        (Contract::When(cases, _, _), PathStep::Case(index)) => {
            note_case(chosen, cases.as_slice(), index, place, left)
        }
        _ => Ok(()),
    }
}

// .. where it takes a case.
fn note_case<'c>(
    chosen: &mut Vec<Chosen<'c>>,
    cases: &'c [Case],
    index: usize,
    step: usize,
    left: &mut u64,
) -> Result<(), Memory> {
    let Some(case) = cases.get(index) else {
        return Ok(());
    };
    match &case.action {
        Action::Deposit(_, _, _, _) => Ok(()),
        Action::Choice(id, bounds) => {
            chosen.push(Chosen {
                step,
                id,
                bounds: bounds.as_slice(),
                earlier: &cases[..index],
                ends: Ends {
                    least: i128::MIN,
                    most: i128::MAX,
                },
            })?;
            Ok(())
        }
        Action::Notify(observation) => {
            narrow(chosen, observation, true, left);
            Ok(())
        }
    }
}

/// For each of so many steps the ends of the number that it chooses, if it chooses one and there is any.
pub(crate) fn ends_of(
    alloc: Global,
    chosen: &[Chosen<'_>],
    steps: usize,
    left: &mut u64,
) -> Result<Vec<Option<Ends>>, Memory> {
    let mut ends = Vec::new(alloc);
    let mut at: usize = 0;
    for step in 0..steps {
        let mut found = None;
        if let Some(one) = chosen.get(at) {
            if one.step == step {
                found = settled(one, left);
                at = at.saturating_add(1);
            }
        }
        ends.push(found)?;
    }
    Ok(ends)
}

// The ends that lie within the bounds of a choice and that no earlier case takes, if there are any.
fn settled(chosen: &Chosen<'_>, left: &mut u64) -> Option<Ends> {
    let mut ends = chosen.ends;
    for _ in 0..ROUNDS {
        if !spend(left, of_bounds(chosen.bounds).saturating_add(1)) {
            return None;
        }
        let inside = within(chosen.bounds, ends)?;
        ends = behind(chosen.earlier, chosen.id, inside, left);
        if ends.least == inside.least && ends.most == inside.most {
            return Some(ends);
        }
    }
    None
}

// The least number from one end on, and the greatest up to the other, that lie within bounds.
fn within(bounds: &[Bound], ends: Ends) -> Option<Ends> {
    let mut found: Option<Ends> = None;
    for bound in bounds {
        let least = bound.from.max(ends.least);
        let most = bound.to.min(ends.most);
        if least <= most {
            found = Some(match found {
                Some(other) => Ends {
                    least: least.min(other.least),
                    most: most.max(other.most),
                },
                None => Ends { least, most },
            });
        }
    }
    found
}

// The first number from one end on that earlier cases don't take, and the last up to the other, where each case is asked once.
fn behind(earlier: &[Case], id: &ChoiceId, ends: Ends, left: &mut u64) -> Ends {
    let mut found = ends;
    for case in earlier {
        if let Action::Choice(other, bounds) = &case.action {
            let taken = bounds.as_slice();
            if !spend(left, of_bounds(taken).saturating_add(1)) {
                return found;
            }
            if other == id {
                found = beyond(taken, found);
            }
        }
    }
    found
}

// .. that bounds don't take.
fn beyond(taken: &[Bound], ends: Ends) -> Ends {
    let mut found = ends;
    for bound in taken {
        if bound.from <= found.least && found.least <= bound.to {
            found.least = bound.to.saturating_add(1);
        }
        if bound.from <= found.most && found.most <= bound.to {
            found.most = bound.from.saturating_sub(1);
        }
    }
    found
}

// How a number is compared with a constant.
#[derive(Clone, Copy)]
enum Comparison {
    AtLeast,
    Above,
    Below,
    AtMost,
    Equal,
    Apart,
}

// Narrows what is chosen to what makes an observation true, or false, as far as it compares numbers with constants.
fn narrow(chosen: &mut Vec<Chosen<'_>>, observation: &Observation, truth: bool, left: &mut u64) {
    if !spend(left, 1) {
        return;
    }
    match observation {
        Observation::NotObs(a) => narrow(chosen, a.get(), !truth, left),
        Observation::AndObs(a, b) => {
            if truth {
                narrow(chosen, a.get(), truth, left);
                narrow(chosen, b.get(), truth, left);
            }
        }
        Observation::OrObs(a, b) => {
            if !truth {
                narrow(chosen, a.get(), truth, left);
                narrow(chosen, b.get(), truth, left);
            }
        }
        _ => narrow_compared(chosen, observation, truth, left),
    }
}

// .. by one comparison.
fn narrow_compared(
    chosen: &mut Vec<Chosen<'_>>,
    observation: &Observation,
    truth: bool,
    left: &mut u64,
) {
    let (a, b, how) = match observation {
        Observation::ValueGE(a, b) => (a, b, Comparison::AtLeast),
        Observation::ValueGT(a, b) => (a, b, Comparison::Above),
        Observation::ValueLT(a, b) => (a, b, Comparison::Below),
        Observation::ValueLE(a, b) => (a, b, Comparison::AtMost),
        Observation::ValueEQ(a, b) => (a, b, Comparison::Equal),
        _ => return,
    };
    let how = if truth { how } else { negated(how) };
    match (a.get(), b.get()) {
        (Value::ChoiceValue(id), Value::Constant(number)) => {
            limit(chosen, id, ends_by(how, *number), left)
        }
        (Value::Constant(number), Value::ChoiceValue(id)) => {
            limit(chosen, id, ends_by(turned(how), *number), left)
        }
        _ => {}
    }
}

// The same comparison with its sides exchanged.
fn turned(how: Comparison) -> Comparison {
    match how {
        Comparison::AtLeast => Comparison::AtMost,
        Comparison::Above => Comparison::Below,
        Comparison::Below => Comparison::Above,
        Comparison::AtMost => Comparison::AtLeast,
        Comparison::Equal => Comparison::Equal,
        Comparison::Apart => Comparison::Apart,
    }
}

// The one that holds where this one doesn't.
fn negated(how: Comparison) -> Comparison {
    match how {
        Comparison::AtLeast => Comparison::Below,
        Comparison::Above => Comparison::AtMost,
        Comparison::Below => Comparison::AtLeast,
        Comparison::AtMost => Comparison::Above,
        Comparison::Equal => Comparison::Apart,
        Comparison::Apart => Comparison::Equal,
    }
}

// Between which ends a number lies that compares so with a constant.
fn ends_by(how: Comparison, number: i128) -> Ends {
    let (least, most) = match how {
        Comparison::AtLeast => (number, i128::MAX),
        Comparison::Above => (number.saturating_add(1), i128::MAX),
        Comparison::Below => (i128::MIN, number.saturating_sub(1)),
        Comparison::AtMost => (i128::MIN, number),
        Comparison::Equal => (number, number),
        Comparison::Apart => (i128::MIN, i128::MAX),
    };
    Ends { least, most }
}

// Limits the number that was last chosen for an id, if it is among the newest.
fn limit(chosen: &mut Vec<Chosen<'_>>, id: &ChoiceId, ends: Ends, left: &mut u64) {
    let newest = chosen.len().saturating_sub(MOST_CHOICES);
    for index in (newest..chosen.len()).rev() {
        if !spend(left, 1) {
            return;
        }
        if chosen[index].id == id {
            let known = chosen[index].ends;
            chosen[index].ends = Ends {
                least: known.least.max(ends.least),
                most: known.most.min(ends.most),
            };
            return;
        }
    }
}
