//! Which numbers the cases claim.
ghost use Rattle.std.specs.Prelude.{◌≡◌, [], ◌∷◌, ◌++◌, IfOk, OnOk, if◌then◌else◌};
ghost use Rattle.semantics.specs.Evaluation.Parts.{StandsWait};
ghost use Rattle.semantics.specs.Evaluation.Path.{waits_for};
ghost use Rattle.next_inputs.specs.Claiming.{range_of_deposit, ranges_of_notify, all_numbers, claims_for, claims_of_wait, AreClaims};

use crate::lane::Lane;
use claims::Claim;
use contract::{Bound, Interval, Memory, State};
use semantics::evaluation::{Parts, Wait};
use std::alloc::Global;

/// The numbers that each case of a contract stops, on its lane: those of the inputs that it takes, and all where a number
/// of its own leaves 128 bits.
pub(crate) fn claims_of<'a, S: Parts>(
    alloc: Global,
    parts: &'a S,
    place: S::Place,
    state: &State,
    interval: Interval,
) -> Result<Vec<Claim<Lane<'a>>>, Memory>
    requires { S.contains parts.now place }
    ensures { IfOk result (λ claims. AreClaims interval state.now (waits_for (S.tree parts.now place)) claims.items) }
{
    let mut claims = Vec::new(alloc);
    for index in 0..parts.count_cases(place) {
        let case = parts.case(place, index);
        claim(parts, case.action, state, interval, index, &mut claims)?;
    }
    Ok(claims)
}

// Puts the claims of a case behind others.
fn claim<'a, S: Parts>(
    parts: &S,
    action: Wait<'a, S::Value, S::Observation>,
    state: &State,
    interval: Interval,
    index: usize,
    claims: &mut Vec<Claim<Lane<'a>>>,
) -> Result<(), Memory>
    requires { StandsWait (S.has_value parts.now) (S.has_observation parts.now) action }
    ensures { OnOk result (claims.new.items ≡ claims.old.items
        ++ claims_of_wait (S.value_tree parts.now) (S.observation_tree parts.now) interval state.now index action.entry) }
{
    match action {
        Wait::Deposit(account, party, token, value) => {
            let range = deposit_range(parts, value, state, interval);
            put_claim(Lane::Deposit(account, party, token), range, index, claims)
        }
        Wait::Choice(id, bounds) => put_claims(Lane::Choice(id), bounds, index, claims),
        Wait::Notify(observation) => {
            if stops(parts, observation, state, interval) {
                put_claim(Lane::Notify, all_numbers(), index, claims)
            } else {
                Ok(())
            }
        }
    }
}

// All numbers.
fn all_numbers() -> Bound
    ensures { result ≡ all_numbers }
{
    Bound {
        from: i128::MIN,
        to: i128::MAX,
    }
}

fn put_claim<'a>(
    lane: Lane<'a>,
    range: Bound,
    by: usize,
    claims: &mut Vec<Claim<Lane<'a>>>,
) -> Result<(), Memory>
    ensures { OnOk result (claims.new.items ≡ claims.old.items ++ claims_for lane.entry by (range ∷ [])) }
{
    claims.push(Claim {
        lane,
        from: range.from,
        to: range.to,
        by,
    })?;
    Ok(())
}

fn put_claims<'a>(
    lane: Lane<'a>,
    bounds: &[Bound],
    by: usize,
    claims: &mut Vec<Claim<Lane<'a>>>,
) -> Result<(), Memory>
    ensures { OnOk result (claims.new.items ≡ claims.old.items ++ claims_for lane.entry by bounds.now) }
{
    for bound in bounds {
        put_claim(lane, *bound, by, claims)?;
    }
    Ok(())
}

// The amount of a deposit, or all where a number of its value leaves 128 bits.
fn deposit_range<S: Parts>(parts: &S, value: S::Value, state: &State, interval: Interval) -> Bound
    requires { S.has_value parts.now value }
    ensures { result ≡ range_of_deposit interval state.now (S.value_tree parts.now value) }
{
    match parts.value(value, state, interval) {
        Ok(amount) => Bound {
            from: amount,
            to: amount,
        },
        Err(_) => all_numbers(),
    }
}

// Whether a notify is stopped: where the observation is true, or a number of its own leaves 128 bits.
fn stops<S: Parts>(
    parts: &S,
    observation: S::Observation,
    state: &State,
    interval: Interval,
) -> bool
    requires { S.has_observation parts.now observation }
    ensures { ranges_of_notify interval state.now (S.observation_tree parts.now observation)
        ≡ (if result then all_numbers ∷ [] else []) }
{
    match parts.holds(observation, state, interval) {
        Ok(is_true) => is_true,
        Err(_) => true,
    }
}
