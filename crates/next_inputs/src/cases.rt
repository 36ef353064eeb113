//! What the cases of a contract offer.
ghost use Rattle.std.specs.Prelude.{◌≡◌, length, IfOk};
ghost use Rattle.semantics.specs.Evaluation.Parts.{StandsWait, wait_tree};
ghost use Rattle.semantics.specs.Evaluation.Path.{waits_for};
ghost use Rattle.next_inputs.specs.Claiming.{offer_of, offers_of};
ghost use Rattle.next_inputs.specs.Offers.{AreOffers};

use crate::claiming::claims_of;
use crate::offer::Offer;
use crate::sharing::shares_of;
use claims::first_come;
use contract::{Bound, Interval, Items, Memory, State};
use semantics::evaluation::{Parts, Wait};
use std::alloc::Global;

/// What each case of a contract that has settled offers to the next input, in a fixed interval: just the inputs that it
/// takes (Marlowe specification version 3, "Apply cases"). A case behind one that takes the same inputs, or that stops
/// them because a number leaves 128 bits, offers what they leave. Of a contract that isn't a When there are no cases.
/// Takes n log n steps for n bounds and cases, and evaluates each value twice.
pub fn offers<S: Parts>(
    alloc: Global,
    parts: &S,
    place: S::Place,
    state: &State,
    interval: Interval,
) -> Result<Items<Offer>, Memory>
    requires { S.contains parts.now place }
    ensures { IfOk result (λ offers. AreOffers interval state.now (waits_for (S.tree parts.now place)) offers) }
{
    let claims = claims_of(alloc, parts, place, state, interval)?;
    let settled = first_come(alloc, &claims)?;
    let shares = shares_of(alloc, parts.count_cases(place), &settled)?;
    let offers = offers_of(alloc, parts, place, state, interval, shares)?;
    Ok(offers)
}

// What the cases offer, each of its share.
fn offers_of<S: Parts>(
    alloc: Global,
    parts: &S,
    place: S::Place,
    state: &State,
    interval: Interval,
    shares: Vec<Items<Bound>>,
) -> Result<Items<Offer>, Memory>
    requires stands { S.contains parts.now place }
    requires each { length shares.items ≡ length (waits_for (S.tree parts.now place)) }
    ensures { IfOk result (λ offers. offers ≡ offers_of interval state.now (waits_for (S.tree parts.now place)) shares.items) }
{
    let mut offers = Items::new(alloc);
    for share in shares {
        let case = parts.case(place, offers.len());
        offers.push(offer(parts, case.action, state, interval, share))?;
    }
    Ok(offers)
}

// What a case offers of its share.
fn offer<S: Parts>(
    parts: &S,
    action: Wait<'_, S::Value, S::Observation>,
    state: &State,
    interval: Interval,
    share: Items<Bound>,
) -> Offer
    requires { StandsWait (S.has_value parts.now) (S.has_observation parts.now) action }
    ensures { result ≡ offer_of interval state.now (wait_tree (S.value_tree parts.now) (S.observation_tree parts.now) action.entry) share }
{
    if share.is_empty() {
        return Offer::Nothing;
    }
    match action {
        Wait::Deposit(_, _, _, value) => match parts.value(value, state, interval) {
            Ok(amount) => Offer::Deposit(amount),
            Err(_) => Offer::Leaves128,
        },
        Wait::Choice(_, _) => Offer::Choice(share),
        Wait::Notify(observation) => match parts.holds(observation, state, interval) {
            Ok(_) => Offer::Notify,
            Err(_) => Offer::Leaves128,
        },
    }
}
