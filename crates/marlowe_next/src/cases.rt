//! What is told of the cases of a contract that has settled.
ghost use Rattle.std.specs.Prelude.{◌≡◌, ◌<◌, ◌≤◌, ◌++◌, length, IfOk, OnOk};
ghost use Rattle.marlowe_run.specs.Semantics.Evaluation.Path.{waits_for};
ghost use Rattle.next_inputs.specs.Offers.{AreOffers};
ghost use Rattle.next_inputs.specs.Behind.{IsRefusedBehind};
ghost use Rattle.next_lines.specs.Seen.{seen_cases};
ghost use Rattle.marlowe_next.specs.AnswerSupport.{seen_if, is_full, CountsCase, CountsFrom, TakesAt, TellsCase, TellsCases};

use contract::{Input, Interval, Memory, Party, SemFault, State, Token, TryClone};
use marlowe_run::{Parts, Wait, beside_dropped};
use next_inputs::{Offer, refused_behind};
use next_lines::{CaseTold, Deposit};
use std::alloc::Global;

/// What is told of the cases of a contract.
#[derive(Drop)]
pub(crate) struct Cases<'a> {
    /// What is told of the first of those that take an input, or of all.
    pub(crate) told: Vec<CaseTold<'a>>,
    /// How many more take one.
    pub(crate) more: usize,
}

/// What is told of each case of a contract that has settled, in a fixed interval, by what the cases offer: of so many of those that
/// take an input at most, or of all.
pub(crate) fn told_cases<'a, S: Parts>(
    alloc: Global,
    parts: &'a S,
    place: S::Place,
    state: &State,
    interval: Interval,
    offers: &'a [Offer],
    most: Option<usize>,
) -> Result<Cases<'a>, Memory>
    requires stands { S.contains parts.now place }
    requires offers { AreOffers interval state.now (waits_for (S.tree parts.now place)) offers.now }
    ensures { IfOk result (λ cases. TellsCases most interval state.now (S.tree parts.now place) offers.now cases) }
{
    let mut told = Vec::new(alloc);
    for index in 0..offers.len() {
        if is_full(told.len(), most) {
            let more = count_from(parts, place, index, offers);
            return Ok(Cases { told, more });
        }
        let case = told_case(alloc, parts, place, index, state, interval, &offers[index])?;
        put_some(&mut told, case)?;
    }
    Ok(Cases { told, more: 0 })
}

// Whether so many are all that may be told.
fn is_full(count: usize, most: Option<usize>) -> bool
    ensures { result ≡ is_full count most }
{
    match most {
        Some(most) => count == most,
        None => false,
    }
}

// How many cases take an input, from the one at an index on.
fn count_from<S: Parts>(parts: &S, place: S::Place, first: usize, offers: &[Offer]) -> usize
    requires stands { S.contains parts.now place }
    requires within { first ≤ length offers.now }
    requires each { length offers.now ≡ length (waits_for (S.tree parts.now place)) }
    ensures { CountsFrom (S.tree parts.now place) offers.now first result }
{
    let mut count = 0;
    for index in first..offers.len() {
        let one = count_case(parts, place, index, &offers[index]);
        count += one;
    }
    count
}

// 1 where a case takes an input, or a number of its own leaves 128 bits, else 0.
fn count_case<S: Parts>(parts: &S, place: S::Place, index: usize, offer: &Offer) -> usize
    requires stands { S.contains parts.now place }
    requires within { index < length (waits_for (S.tree parts.now place)) }
    ensures one { result ≤ 1 }
    ensures counts { CountsCase (S.tree parts.now place) index offer.now result }
{
    let case = parts.case(place, index);
    match (case.action, offer) {
        (Wait::Deposit(_, _, _, _), Offer::Deposit(_)) => 1,
        (Wait::Deposit(_, _, _, _), Offer::Leaves128) => 1,
        (Wait::Choice(_, _), Offer::Choice(_)) => 1,
        (Wait::Notify(_), Offer::Notify) => 1,
        (Wait::Notify(_), Offer::Leaves128) => 1,
        _ => 0,
    }
}

fn put_some<'a>(told: &mut Vec<CaseTold<'a>>, case: Option<CaseTold<'a>>) -> Result<(), Memory>
    ensures { OnOk result (seen_cases told.new.items ≡ seen_cases told.old.items ++ seen_if case.entry) }
{
    if let Some(case) = case {
        told.push(case)?;
    }
    Ok(())
}

// What is told of a case, if something is.
fn told_case<'a, S: Parts>(
    alloc: Global,
    parts: &'a S,
    place: S::Place,
    index: usize,
    state: &State,
    interval: Interval,
    offer: &'a Offer,
) -> Result<Option<CaseTold<'a>>, Memory>
    requires stands { S.contains parts.now place }
    requires within { index < length (waits_for (S.tree parts.now place)) }
    requires takes { TakesAt interval state.now (S.tree parts.now place) index offer.now }
    ensures { IfOk result (λ told. TellsCase interval state.now (S.tree parts.now place) index offer.now (seen_if told)) }
{
    let case = parts.case(place, index);
    match (case.action, offer) {
        (Wait::Deposit(account, party, token, _), Offer::Deposit(amount)) => {
            let amount = *amount;
            let input = deposit_input(account, party, token, amount)?;
            let refused = refusal(alloc, parts, place, index, state, interval, input)?;
            let deposit = Deposit {
                account,
                party,
                token,
                amount,
            };
            Ok(Some(CaseTold::Deposit(index, deposit, refused)))
        }
        (Wait::Deposit(account, party, token, _), Offer::Leaves128) => {
            Ok(Some(CaseTold::DepositLeaves(index, account, party, token)))
        }
        (Wait::Choice(id, _), Offer::Choice(bounds)) => {
            Ok(Some(CaseTold::Choice(index, id, bounds)))
        }
        (Wait::Notify(_), Offer::Notify) => {
            let refused = refusal(alloc, parts, place, index, state, interval, Input::Notify)?;
            Ok(Some(CaseTold::Notify(index, refused)))
        }
        (Wait::Notify(_), Offer::Leaves128) => Ok(Some(CaseTold::NotifyLeaves(index))),
        _ => Ok(None),
    }
}

// Why what follows an input that takes a case is refused, if it is.
fn refusal<S: Parts>(
    alloc: Global,
    parts: &S,
    place: S::Place,
    index: usize,
    state: &State,
    interval: Interval,
    input: Input,
) -> Result<Option<SemFault>, Memory>
    requires stands { S.contains parts.now place }
    requires within { index < length (waits_for (S.tree parts.now place)) }
    ensures { IfOk result (IsRefusedBehind interval state.now (S.tree parts.now place) index input) }
{
    let refused = refused_behind(alloc, parts, place, index, state, interval, &input);
    beside_dropped(input, refused)
}

fn deposit_input(
    account: &Party,
    party: &Party,
    token: &Token,
    amount: i128,
) -> Result<Input, Memory>
    ensures { IfOk result (λ input. input ≡ Input.Deposit account.now party.now token.now amount) }
{
    let account = account.try_clone()?;
    let party = party.try_clone()?;
    let token = token.try_clone()?;
    Ok(Input::Deposit(account, party, token, amount))
}
