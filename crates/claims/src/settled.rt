//! What each claim gets.
ghost use Rattle.std.specs.Prelude.{◌≡◌, ℕ, ℤ, ◌≤ℤ◌, Bool, true, List, [], ◌∷◌, ◌++◌, ◌≤◌, length, drop, IfOk, OnOk, int_lt};
ghost use Rattle.claims.specs.Claims.{owner, IsLane, is_before, AreApart};
ghost use Rattle.claims.specs.Joining.{front_of, rest_of};

use crate::claim::Claim;
use std::alloc::{AllocError, Global};
use std::cmp::Ordering;

/// The same numbers, each with the first that claims it, as claims that lie apart and in order: by lane, and then from
/// below. Takes n log n steps for n claims.
pub fn first_come<K: Ord + Copy>(
    alloc: Global,
    claims: &[Claim<K>],
) -> Result<Vec<Claim<K>>, AllocError>
    ensures apart { IfOk result (λ found. AreApart K.cmp found.items) }
    ensures owners { IfOk result (λ found. (is_lane : K → Bool) (n : ℤ) → IsLane K.cmp is_lane
        → owner is_lane n found.items ≡ owner is_lane n claims.now) }
{
    match claims {
        [] => Ok(Vec::new(alloc)),
        [claim] => alone(alloc, *claim),
        _ => {
            let (front, back) = claims.split_at(claims.len() / 2);
            let left = first_come(alloc, front)?;
            let mut right = first_come(alloc, back)?;
            let found = joined(alloc, &left, &mut right)?;
            Ok(found)
        }
    }
}

// A claim, unless it is empty.
fn alone<K: Ord + Copy>(alloc: Global, claim: Claim<K>) -> Result<Vec<Claim<K>>, AllocError>
    ensures apart { IfOk result (λ found. AreApart K.cmp found.items) }
    ensures owners { IfOk result (λ found. (is_lane : K → Bool) (n : ℤ)
        → owner is_lane n found.items ≡ owner is_lane n (claim ∷ [])) }
{
    let mut found = Vec::new(alloc);
    if claim.from <= claim.to {
        found.push(claim)?;
    }
    Ok(found)
}

// Two lists of claims as one, where those of the left go first. The right is written over.
fn joined<K: Ord + Copy>(
    alloc: Global,
    left: &[Claim<K>],
    right: &mut [Claim<K>],
) -> Result<Vec<Claim<K>>, AllocError>
    requires left { AreApart K.cmp left.now }
    requires right { AreApart K.cmp right.old }
    ensures apart { IfOk result (λ found. AreApart K.cmp found.items) }
    ensures owners { IfOk result (λ found. (is_lane : K → Bool) (n : ℤ) → IsLane K.cmp is_lane
        → owner is_lane n found.items ≡ owner is_lane n (left.now ++ right.old)) }
{
    let mut all = Vec::with_capacity(alloc, left.len())?;
    let mut i = 0;
    let mut j = 0;
    while i < left.len() && j < right.len() {
        let first = left[i];
        let second = right[j];
        if is_before(&first, &second) {
            all.push(first)?;
            i += 1;
        } else if is_before(&second, &first) {
            all.push(second)?;
            j += 1;
        } else {
            push_front(&mut all, &first, &second)?;
            if ends_before(&first, &second) {
                right[j] = above(&first, &second);
                all.push(first)?;
                i += 1;
            } else {
                j += 1;
            }
        }
    }
    push_from(&mut all, left, i)?;
    push_from(&mut all, right, j)?;
    Ok(all)
}

// Puts the claims from an index on behind others.
fn push_from<K: Copy>(
    all: &mut Vec<Claim<K>>,
    claims: &[Claim<K>],
    from: usize,
) -> Result<(), AllocError>
    requires { from ≤ length claims.now }
    ensures { OnOk result (all.new.items ≡ all.old.items ++ drop from claims.now) }
{
    all.extend_from_slice(&claims[from..])?;
    Ok(())
}

// What of the second claim lies below the first, where there is any.
fn push_front<K: Ord + Copy>(
    all: &mut Vec<Claim<K>>,
    first: &Claim<K>,
    second: &Claim<K>,
) -> Result<(), AllocError>
    ensures { OnOk result (all.new.items ≡ all.old.items ++ front_of first.now second.now) }
{
    if second.from < first.from {
        all.push(Claim {
            to: first.from - 1,
            ..*second
        })?;
    }
    Ok(())
}

// Whether a claim ends below the end of another.
fn ends_before<K: Copy>(first: &Claim<K>, second: &Claim<K>) -> bool
    ensures { result ≡ int_lt first.now.to second.now.to }
{
    first.to < second.to
}

// What of the second claim lies above the first, where it ends above it.
fn above<K: Copy>(first: &Claim<K>, second: &Claim<K>) -> Claim<K>
    ensures { int_lt first.now.to second.now.to ≡ true → result ≡ rest_of first.now second.now }
{
    if first.to < second.to {
        Claim {
            from: first.to + 1,
            ..*second
        }
    } else {
        *second
    }
}

// Whether a claim lies before another.
fn is_before<K: Ord + Copy>(a: &Claim<K>, b: &Claim<K>) -> bool
    ensures { result ≡ is_before K.cmp a.now b.now }
{
    match a.lane.cmp(&b.lane) {
        Ordering::Less => true,
        Ordering::Equal => a.to < b.from,
        Ordering::Greater => false,
    }
}
