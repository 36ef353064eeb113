//! Choices.
ghost use Rattle.std.specs.Prelude.{◌≡◌, ℤ, ◌≤ℤ◌, true, false, ◌&&◌, ◌++◌, All, ◌⊎◌, IfOk, OnOk};
ghost use Rattle.std.specs.Int.{int_min, int_max};
ghost use Rattle.std.specs.List.{list_any};
ghost use Rattle.contract.specs.Names.Equal.{same_choice_id};
ghost use Rattle.semantics.specs.Applying.{in_bound};
ghost use Rattle.analysis_walk.specs.Conclusions.{ChoosesSo};
ghost use Rattle.analysis_walk.specs.Knowledge.{actions_before};
ghost use Rattle.analysis_values.specs.Known.{IsDescribed};
ghost use Rattle.analysis_steps.specs.Chosen.{IsFromTo, IsWithin, IsHull, IsHullOfClaims, IsPassed, IsEndOf, IsChosen, Owns, IsUnclaimed, ClaimsPassed, ClaimsOutside, claim_of, claims_of};

use analysis_values::Known;
use analysis_walk::Conclusion;
use claims::{Claim, first_come};
use contract::{Action, Bound, Case, ChoiceId, Items, Memory, Same};
use std::alloc::Global;

/// The most earlier cases that `choose`, `deposit` and `notify` look at: the last 64. An input that an older case takes is
/// then thought to be left, which bounds the time.
pub const MOST_CASES: usize = 64;

// A range and one bound more, unless that is empty.
#[tactic(auto, using(crate::proofs::ChosenLemmas::wider_none, crate::proofs::ChosenLemmas::wider_first, crate::proofs::ChosenLemmas::wider_both))]
fn wider(range: Option<Bound>, bound: Bound) -> Option<Bound>
    ensures { (n : ℤ) → IsWithin range n ⊎ (in_bound n bound ≡ true) → IsWithin result n }
{
    if bound.from > bound.to {
        return range;
    }
    match range {
        Some(old) => Some(joined(old, bound)),
        None => Some(bound),
    }
}

fn joined(a: Bound, b: Bound) -> Bound
    ensures least { result.from ≡ int_min a.from b.from }
    ensures greatest { result.to ≡ int_max a.to b.to }
{
    Bound {
        from: if b.from < a.from { b.from } else { a.from },
        to: if b.to < a.to { a.to } else { b.to },
    }
}

// The range of all bounds that aren't empty; none where all are.
fn hull(bounds: &[Bound]) -> Option<Bound>
    ensures { IsHull bounds.now result }
{
    let mut range: Option<Bound> = None;
    for bound in bounds {
        range = wider(range, *bound);
    }
    range
}

// A number, or the first behind a bound that it is in.
fn raised_by_one(bound: Bound, from: i128) -> i128
    ensures { (n : ℤ) → in_bound n bound ≡ false → from ≤ℤ n → result ≤ℤ n }
{
    if bound.from <= from && from <= bound.to && bound.to < i128::MAX {
        bound.to + 1
    } else {
        from
    }
}

// A number, or the last before a bound that it is in.
fn lowered_by_one(bound: Bound, to: i128) -> i128
    ensures { (n : ℤ) → in_bound n bound ≡ false → n ≤ℤ to → n ≤ℤ result }
{
    if bound.from <= to && to <= bound.to && i128::MIN < bound.from {
        bound.from - 1
    } else {
        to
    }
}

// A range without the numbers at its ends that are in some bounds, each in turn.
fn narrowed_by(bounds: &[Bound], range: Bound) -> Bound
    ensures { (n : ℤ) → list_any (in_bound n) bounds.now ≡ false → IsFromTo range n → IsFromTo result n }
{
    let mut left = range;
    for bound in bounds {
        left = Bound {
            from: raised_by_one(*bound, left.from),
            to: lowered_by_one(*bound, left.to),
        };
    }
    left
}

// A claim of the numbers within a bound: by 0, the earlier cases, or by 1, the bounds of the choice.
fn claim_of(bound: Bound, by: usize) -> Claim<bool>
    ensures { result ≡ claim_of by bound }
{
    Claim {
        lane: true,
        from: bound.from,
        to: bound.to,
        by,
    }
}

// Puts a claim of each bound behind others.
fn put_bounds(claims: &mut Vec<Claim<bool>>, bounds: &[Bound], by: usize) -> Result<(), Memory>
    ensures { OnOk result (claims.new.items ≡ claims.old.items ++ claims_of by bounds.now) }
{
    for bound in bounds {
        let claim = claim_of(*bound, by);
        claims.push(claim)?;
    }
    Ok(())
}

fn same_choice(id: &ChoiceId, of: &ChoiceId) -> bool
    ensures { result ≡ same_choice_id id.now of.now }
{
    id.same(of)
}

// .. of each bound of a case of the choice.
fn put_case(claims: &mut Vec<Claim<bool>>, case: &Case, id: &ChoiceId) -> Result<(), Memory>
    ensures { OnOk result (ClaimsPassed id.now case.now claims.old.items claims.new.items) }
{
    match &case.action {
        Action::Choice(of, bounds) => put_choice(claims, of, bounds.as_slice(), id),
        _ => Ok(()),
    }
}

fn put_choice(
    claims: &mut Vec<Claim<bool>>,
    of: &ChoiceId,
    bounds: &[Bound],
    id: &ChoiceId,
) -> Result<(), Memory>
    ensures { OnOk result (ClaimsOutside id.now of.now bounds.now claims.old.items claims.new.items) }
{
    let same = same_choice(id, of);
    if same {
        put_bounds(claims, bounds, 0)
    } else {
        Ok(())
    }
}

// What the last of the earlier cases claim of a choice.
fn claims_of_cases(alloc: Global, cases: &[Case], id: &ChoiceId) -> Result<Vec<Claim<bool>>, Memory>
    ensures { IfOk result (λ claims. (n : ℤ) → All (IsPassed id.now n) cases.now → IsUnclaimed n claims.items) }
{
    let mut claims = Vec::new(alloc);
    for case in cases {
        put_case(&mut claims, case, id)?;
    }
    Ok(claims)
}

// A range, and the numbers of a claim, where the bounds have it.
fn wider_by(range: Option<Bound>, claim: Claim<bool>) -> Option<Bound>
    ensures { (n : ℤ) → IsWithin range n ⊎ Owns n claim → IsWithin result n }
{
    if claim.by != 1 {
        return range;
    }
    wider(
        range,
        Bound {
            from: claim.from,
            to: claim.to,
        },
    )
}

// The range of all numbers that the bounds have.
fn hull_of_claims(claims: &[Claim<bool>]) -> Option<Bound>
    ensures { IsHullOfClaims claims.now result }
{
    let mut range: Option<Bound> = None;
    for claim in claims {
        range = wider_by(range, *claim);
    }
    range
}

// A range without the numbers at its ends that a case of a choice takes.
fn narrowed_by_choice(of: &ChoiceId, bounds: &[Bound], id: &ChoiceId, range: Bound) -> Bound
    ensures { (n : ℤ) → (same_choice_id id.now of.now && list_any (in_bound n) bounds.now) ≡ false → IsFromTo range n → IsFromTo result n }
{
    let same = same_choice(id, of);
    if same {
        narrowed_by(bounds, range)
    } else {
        range
    }
}

// A range without the numbers at its ends that a case takes.
fn narrowed_by_case(case: &Case, id: &ChoiceId, range: Bound) -> Bound
    ensures { (n : ℤ) → IsPassed id.now n case.now → IsFromTo range n → IsFromTo result n }
{
    match &case.action {
        Action::Choice(of, bounds) => narrowed_by_choice(of, bounds.as_slice(), id, range),
        _ => range,
    }
}

// A range without the numbers at its ends that these cases take, each in turn.
fn narrowed(cases: &[Case], id: &ChoiceId, range: Bound) -> Bound
    ensures { (n : ℤ) → All (IsPassed id.now n) cases.now → IsFromTo range n → IsFromTo result n }
{
    let mut left = range;
    for case in cases {
        left = narrowed_by_case(case, id, left);
    }
    left
}

// The range of the numbers within bounds that these cases don't take; none where there is none. The cases claim first what they
// take, and the range is that of what is left for the bounds, wherever the ends lie.
fn range_by_claims(
    alloc: Global,
    cases: &[Case],
    id: &ChoiceId,
    bounds: &[Bound],
) -> Result<Option<Bound>, Memory>
    ensures { IfOk result (λ o. (n : ℤ) → All (IsPassed id.now n) cases.now → list_any (in_bound n) bounds.now ≡ true → IsWithin o n) }
{
    let mut claims = claims_of_cases(alloc, cases, id)?;
    put_bounds(&mut claims, bounds, 1)?;
    let found = first_come(alloc, &claims)?;
    Ok(hull_of_claims(&found))
}

// A range that holds a number.
fn unless_empty(range: Bound) -> Option<Bound>
    ensures { (n : ℤ) → IsFromTo range n → IsWithin result n }
{
    if range.from > range.to {
        None
    } else {
        Some(range)
    }
}

// Whether an end of a range lies within one of some bounds.
fn has_an_end(bounds: &[Bound], range: Bound) -> bool {
    for bound in bounds {
        let first = bound.from <= range.from && range.from <= bound.to;
        let last = bound.from <= range.to && range.to <= bound.to;
        if first || last {
            return true;
        }
    }
    false
}

// Whether one of these cases of a choice takes an end of a range.
fn is_end_taken(cases: &[Case], id: &ChoiceId, range: Bound) -> bool {
    for case in cases {
        if let Action::Choice(of, bounds) = &case.action {
            if has_an_end(bounds.as_slice(), range) && same_choice(id, of) {
                return true;
            }
        }
    }
    false
}

// Whether a range without numbers at its ends is known to be the range of all that is left of bounds: where nothing is left, and of
// a single bound where no case takes an end.
fn is_all(cases: &[Case], id: &ChoiceId, bounds: &[Bound], left: Bound) -> bool {
    if left.from > left.to {
        return true;
    }
    bounds.len() < 2 && !is_end_taken(cases, id, left)
}

// The range of the numbers within bounds that the last of the earlier cases don't take; none where there is none.
fn range_left(
    alloc: Global,
    earlier: &[Case],
    id: &ChoiceId,
    bounds: &[Bound],
) -> Result<Option<Bound>, Memory>
    ensures { IfOk result (λ o. (n : ℤ) → All (IsPassed id.now n) earlier.now → list_any (in_bound n) bounds.now ≡ true → IsWithin o n) }
{
    let cases = last_of(earlier);
    match hull(bounds) {
        None => Ok(None),
        Some(range) => {
            let left = narrowed(cases, id, range);
            if is_all(cases, id, bounds, left) {
                return Ok(unless_empty(left));
            }
            range_by_claims(alloc, cases, id, bounds)
        }
    }
}

// The last of the cases, as many as are looked at.
#[tactic(auto, using(crate::proofs::ChosenLemmas::ends_at))]
pub(crate) fn last_of(cases: &[Case]) -> &[Case]
    ensures { IsEndOf cases.now result.now }
{
    if cases.len() > MOST_CASES {
        &cases[cases.len() - MOST_CASES..]
    } else {
        cases
    }
}

// A number of a choice in a range.
fn chosen_from(known: Known, id: &ChoiceId, range: Bound) -> Result<Known, Memory>
    ensures { IfOk result (IsChosen known id.now range) }
{
    let mut known = known;
    let number = known.fresh(Some(range.from), Some(range.to))?;
    known.set_choice(id, number)?;
    Ok(known)
}

/// The number of a choice within bounds, which no earlier case takes (Marlowe specification version 3, "Apply cases"):
/// none where there is none.
pub fn choose(
    alloc: Global,
    known: Known,
    earlier: &[Case],
    id: &ChoiceId,
    bounds: &Items<Bound>,
) -> Result<Conclusion<Known>, Memory>
    ensures { IfOk result (ChoosesSo IsDescribed known (actions_before earlier.now) id.now bounds.now) }
{
    let kinds = Items::new(alloc);
    let range = range_left(alloc, earlier, id, bounds.as_slice())?;
    match range {
        None => Ok(Conclusion { kinds, known: None }),
        Some(range) => {
            let chosen = chosen_from(known, id, range)?;
            Ok(Conclusion {
                kinds,
                known: Some(chosen),
            })
        }
    }
}
