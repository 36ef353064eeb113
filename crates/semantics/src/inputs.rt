//! One input.
ghost use Rattle.std.specs.Prelude.{◌≡◌, ◌++◌, OnOk, IfOk};
ghost use Rattle.std.specs.List.{list_any};
ghost use Rattle.std.specs.Option.{IfSome};
ghost use Rattle.contract.specs.Names.Equal.{same_party, same_token, same_choice_id};
ghost use Rattle.evaluation.specs.Numbers.{within};
ghost use Rattle.contract.specs.Collections.Answers.{Aside};
ghost use Rattle.semantics.specs.Walk.{standing};
ghost use Rattle.evaluation.specs.Path.{waits_for};
ghost use Rattle.semantics.specs.Applying.{agrees, in_bound, matches_within, taken, taken_numbers, taken_warnings};
ghost use Rattle.semantics.specs.Computed.{first_match_index, match_within, applied};
ghost use Rattle.evaluation.specs.Parts.{IsEntered, StandsWait, wait_tree};
ghost use Rattle.semantics.specs.Answer.{Continues, tree_of_next};

use crate::accounts::deposit;
use crate::copies::three_copies;
use crate::log::Log;
use contract::{
    Bound, ChoiceId, Input, Interval, Memory, Party, Same, SemFault, State, Token, Warning,
};
use evaluation::{Parts, Wait};

/// Applies an input to a quiet contract (Marlowe specification version 3, "Apply input"): where the first case that
/// matches goes on. The interval is one that `fix` gave. The fault is `NoMatch` where no case matches, `Leaves128` where
/// a number that is visited up to there leaves 128 bits, or `Memory`. After a fault nothing is promised of the state and
/// the log.
#[tactic(auto, unfolding(crate::specs::Computed::applied), using(evaluation::proofs::Numbers::all_fit_append))]
pub fn apply<S: Parts>(
    parts: &S,
    input: &Input,
    place: S::Place,
    state: &mut State,
    interval: Interval,
    log: &mut Log,
) -> Result<S::Place, SemFault>
    requires { S.contains parts.now place }
    ensures { Continues (S.tree parts.now) (S.contains parts.now) (S.enters parts.now) place log.old log.new state.new
        (applied interval input.now (standing state.old (S.tree parts.now place))) result }
{
    let Some(then) = matching_case(parts, input, place, state, interval)? else {
        return Err(SemFault::NoMatch);
    };
    take(input, state, log)?;
    Ok(then)
}

/// Where the first case that matches an input goes on, of those that the contract at a place waits for; none
/// where no case matches (Marlowe specification version 3, "Apply cases"). The only fault is `Leaves128`, where
/// a number that is visited on the way leaves 128 bits; takes no memory.
pub fn matching_case<S: Parts>(
    parts: &S,
    input: &Input,
    place: S::Place,
    state: &State,
    interval: Interval,
) -> Result<Option<S::Place>, SemFault>
    requires { S.contains parts.now place }
    ensures reply { tree_of_next (S.tree parts.now) result
        ≡ match_within interval state.now input.now (waits_for (S.tree parts.now place)) }
    ensures place { IfOk result (λ found. IfSome found (IsEntered (S.contains parts.now) (S.enters parts.now) place
        (first_match_index interval state.now input.now (waits_for (S.tree parts.now place))))) }
{
    for index in 0..parts.count_cases(place) {
        let case = parts.case(place, index);
        if matches(parts, input, case.action, state, interval)? {
            return Ok(Some(case.then));
        }
    }
    Ok(None)
}

/// Whether an input matches an action (Marlowe specification version 3, "Apply cases"). The only fault is `Leaves128`,
/// where a number that is visited on the way leaves 128 bits; takes no memory.
pub fn matches<S: Parts>(
    parts: &S,
    input: &Input,
    action: Wait<'_, S::Value, S::Observation>,
    state: &State,
    interval: Interval,
) -> Result<bool, SemFault>
    requires { StandsWait (S.has_value parts.now) (S.has_observation parts.now) action }
    ensures { result
        ≡ matches_within interval state.now input.now (wait_tree (S.value_tree parts.now) (S.observation_tree parts.now) action.entry) }
{
    match (input, action) {
        (Input::Deposit(account, party, token, amount), Wait::Deposit(a, p, t, expected)) => {
            if agrees(account, party, token, a, p, t) {
                let expected = parts.value(expected, state, interval)?;
                Ok(*amount == expected)
            } else {
                Ok(false)
            }
        }
        (Input::Choice(id, number), Wait::Choice(of, bounds)) => {
            Ok(same_choice(id, of) && in_bounds(*number, bounds))
        }
        (Input::Notify, Wait::Notify(observation)) => parts.holds(observation, state, interval),
        _ => Ok(false),
    }
}

// Whether account, party and token of a deposit are those of a case.
fn agrees(
    account: &Party,
    party: &Party,
    token: &Token,
    of_account: &Party,
    of_party: &Party,
    of_token: &Token,
) -> bool
    ensures { result ≡ agrees account.now party.now token.now of_account.now of_party.now of_token.now }
{
    same_party(account, of_account) && same_party(party, of_party) && same_token(token, of_token)
}

fn same_party(party: &Party, of: &Party) -> bool
    ensures { result ≡ same_party party.now of.now }
{
    party.same(of)
}

fn same_token(token: &Token, of: &Token) -> bool
    ensures { result ≡ same_token token.now of.now }
{
    token.same(of)
}

fn same_choice(id: &ChoiceId, of: &ChoiceId) -> bool
    ensures { result ≡ same_choice_id id.now of.now }
{
    id.same(of)
}

// Whether a number lies in one of the bounds, ends included.
fn in_bounds(number: i128, bounds: &[Bound]) -> bool
    ensures { result ≡ list_any (in_bound number) bounds.now }
{
    bounds
        .iter()
        .any(|bound| bound.from <= number && number <= bound.to)
}

/// What an input does to the state once a case takes it, and what it warns of (Marlowe specification version 3, "Apply
/// action"). The fault is `Leaves128`, where the account's sum leaves 128 bits, or `Memory`. After a fault nothing is
/// promised of the state and the log.
pub fn take(input: &Input, state: &mut State, log: &mut Log) -> Result<(), SemFault>
    ensures reply { Aside SemFault.Memory result (within (taken_numbers state.old input.now) tt) }
    ensures state { OnOk result (state.new ≡ taken state.old input.now) }
    ensures warnings { OnOk result (log.new.warnings
        ≡ log.old.warnings ++ taken_warnings input.now) }
    ensures payments { OnOk result (log.new.payments ≡ log.old.payments) }
{
    match input {
        Input::Deposit(account, party, token, amount) => {
            if *amount <= 0 {
                let warning = non_positive_deposit(account, party, token, *amount)?;
                log.warn(warning)?;
                Ok(())
            } else {
                deposit(account, token, *amount, state)
            }
        }
        Input::Choice(id, number) => {
            state.set_choice(id, *number)?;
            Ok(())
        }
        Input::Notify => Ok(()),
    }
}

fn non_positive_deposit(
    account: &Party,
    party: &Party,
    token: &Token,
    amount: i128,
) -> Result<Warning, Memory>
    ensures { IfOk result (λ warning. warning
        ≡ Warning.NonPositiveDeposit account.now party.now token.now amount) }
{
    let (account, party, token) = three_copies(account, party, token)?;
    Ok(Warning::NonPositiveDeposit(account, party, token, amount))
}
