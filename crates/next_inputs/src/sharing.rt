//! What each case gets of the numbers.
ghost use Rattle.std.specs.Prelude.{◌≡◌, ◌+ℤ◌, pos, [], ◌∷◌, ◌++◌, length, IfOk, OnOk};
ghost use Rattle.std.specs.Ordering.{int_eq};
ghost use Rattle.std.specs.List.{AllByRecursion};
ghost use Rattle.next_inputs.specs.Claiming.{put, AreShares, IsBy};

use crate::lane::Lane;
use claims::Claim;
use contract::{Bound, Items, Memory};
use std::alloc::Global;
use std::mem;

/// What each of so many cases gets: the ranges of its claims in order, those that touch as one.
pub(crate) fn shares_of(
    alloc: Global,
    count: usize,
    settled: &[Claim<Lane<'_>>],
) -> Result<Vec<Items<Bound>>, Memory>
    requires { AllByRecursion (IsBy count) settled.now }
    ensures each { IfOk result (λ shares. length shares.items ≡ count) }
    ensures shares { IfOk result (λ shares. AreShares shares.items settled.now) }
{
    let mut shares = no_shares(alloc, count)?;
    for claim in settled {
        let range = range_of(claim);
        add(alloc, &mut shares[claim.by], range)?;
    }
    Ok(shares)
}

// Nothing for each.
fn no_shares(alloc: Global, count: usize) -> Result<Vec<Items<Bound>>, Memory>
    ensures each { IfOk result (λ shares. length shares.items ≡ count) }
    ensures shares { IfOk result (λ shares. AreShares shares.items []) }
{
    let mut shares = Vec::with_capacity(alloc, count)?;
    for index in 0..count {
        let _ = index;
        shares.push(Items::new(alloc))?;
    }
    Ok(shares)
}

fn range_of(claim: &Claim<Lane<'_>>) -> Bound
    ensures { result ≡ record { from = claim.now.from; to = claim.now.to } }
{
    Bound {
        from: claim.from,
        to: claim.to,
    }
}

// Puts one range more behind those of a share.
fn add(alloc: Global, share: &mut Items<Bound>, range: Bound) -> Result<(), Memory>
    ensures { OnOk result (share.new ≡ put share.old range.from range.to) }
{
    let had = mem::replace(share, Items::new(alloc));
    *share = with_range(had, range)?;
    Ok(())
}

// A share with one range more, behind its others.
fn with_range(share: Items<Bound>, range: Bound) -> Result<Items<Bound>, Memory>
    ensures { IfOk result (λ more. more ≡ put share range.from range.to) }
{
    let mut bounds = share.into_vec();
    let last = last_joined(&mut bounds, range)?;
    bounds.push(last)?;
    Ok(Items::from_vec(bounds))
}

// The range that comes last: the new one, or one with the last, which is taken out, where they touch.
fn last_joined(bounds: &mut Vec<Bound>, range: Bound) -> Result<Bound, Memory>
    ensures { IfOk result (λ last. put bounds.old.items range.from range.to ≡ bounds.new.items ++ last ∷ []) }
{
    let Some(last) = bounds.pop() else {
        return Ok(range);
    };
    if touches(last, range) {
        let both = from_to(last, range);
        return Ok(both);
    }
    bounds.push(last)?;
    Ok(range)
}

// From where the first begins to where the second ends.
fn from_to(first: Bound, second: Bound) -> Bound
    ensures { result ≡ record { from = first.from; to = second.to } }
{
    Bound {
        from: first.from,
        to: second.to,
    }
}

// Whether no number lies between a range and one that begins above it.
fn touches(range: Bound, next: Bound) -> bool
    ensures { result ≡ int_eq (range.to +ℤ pos 1) next.from }
{
    range.to < i128::MAX && range.to + 1 == next.from
}
