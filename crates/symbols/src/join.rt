//! What holds in either of two cases.
ghost use Rattle.std.specs.Prelude.{◌≡◌, ℕ, IfOk, OnOk, true, length, ◌<◌};
ghost use Rattle.linear.specs.Linear.{TermsBelow, IsFromEither, IsUpToEither};
ghost use Rattle.linear.specs.Bounded.{numbered};
ghost use Rattle.symbols.specs.Joined.{AreShared, AreJoined};

use evaluation::collections::{Items, Memory, TryClone};
use linear::{Linear, MOST_TAKEN, Ranges, counted_with, is_below, shown};

// Where those start, of the facts from a place on, of which it is asked whether another case shows them: the newest, as many as a
// query takes.
fn first_shared(own: &[Linear], from: usize) -> usize {
    let mut taken = 0;
    for newer in 0..MOST_TAKEN {
        if newer >= own.len().saturating_sub(from) || taken >= MOST_TAKEN {
            return own.len().saturating_sub(newer);
        }
        taken = counted_with(taken, &own[own.len() - newer - 1]);
    }
    own.len().saturating_sub(MOST_TAKEN)
}

/// Puts the newest facts of one case, of those from a place on, behind others, where they are over symbols below a number
/// and the other case shows them.
pub(crate) fn put_shared(
    facts: &mut Items<Linear>,
    count: usize,
    own: &[Linear],
    from: usize,
    bounds: &Ranges,
    others: &[Linear],
) -> Result<(), Memory>
    ensures { OnOk result (AreShared count own.now (numbered 0 bounds.now) others.now facts.old facts.new) }
{
    for at in first_shared(own, from)..own.len() {
        put_one(facts, count, own, at, bounds, others)?;
    }
    Ok(())
}

fn put_one(
    facts: &mut Items<Linear>,
    count: usize,
    own: &[Linear],
    at: usize,
    bounds: &Ranges,
    others: &[Linear],
) -> Result<(), Memory>
    requires { at < length own.now }
    ensures { OnOk result (AreShared count own.now (numbered 0 bounds.now) others.now facts.old facts.new) }
{
    let fact = &own[at];
    if is_below(fact.terms(), count) && shown(bounds, others, fact) {
        let copy = fact.try_clone()?;
        facts.push(copy)?;
    }
    Ok(())
}

/// Facts, and those of two cases, the newest from a place on, that are over symbols below a number and shown in the other
/// case.
pub(crate) fn joined_facts(
    own: &Items<Linear>,
    count: usize,
    from: usize,
    bounds: &Ranges,
    facts: &[Linear],
    other_from: usize,
    other_bounds: &Ranges,
    other_facts: &[Linear],
) -> Result<Items<Linear>, Memory>
    ensures { IfOk result (AreJoined count own.now (numbered 0 bounds.now) facts.now (numbered 0 other_bounds.now) other_facts.now) }
{
    let mut out = own.try_clone()?;
    put_shared(&mut out, count, facts, from, other_bounds, other_facts)?;
    put_shared(&mut out, count, other_facts, other_from, bounds, facts)?;
    Ok(out)
}
