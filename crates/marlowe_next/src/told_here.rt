//! What is told of a contract where transactions have led, once it has settled.
ghost use Rattle.std.specs.Prelude.{◌≡◌, ◌++◌, map, IfOk, OnOk, IfSome};
ghost use Rattle.contract.specs.Tree.{contract_tree};
ghost use Rattle.marlowe_run.specs.Semantics.Walk.{standing};
ghost use Rattle.marlowe_next.specs.Answer.{printed, told_of, warning_told};
ghost use Rattle.marlowe_next.specs.Question.{reached_at};
ghost use Rattle.next_lines.specs.Seen.{IsMoment, seen, seen_warning};
ghost use Rattle.marlowe_next.specs.AnswerSupport.{HasSettled, TellsSettled, AreOffersThere, limit, spelled, under, warnings_under};

use crate::asked::fixed;
use crate::cases::told_cases;
use analysis_spec::PathStep;
use contract::{Contract, Interval, Memory};
use marlowe_run::{Plain, beside_dropped};
use next_inputs::{Offer, offers, waits_until};
use next_lines::{ToldHere, ToldWarning, told_json, told_lines};
use places::{keys_of, path_keys, warning_name};
use std::alloc::Global;
use trace::{Left, Settled, Warned};

/// The text of a contract that has settled over an interval: JSON, or lines that tell so many inputs at most.
pub(crate) fn settled_text(
    alloc: Global,
    whole: &Contract,
    left: &Left<'_>,
    interval: Interval,
    settled: &Settled<'_>,
    json: bool,
    most: Option<usize>,
) -> Result<Vec<u8>, Memory>
    requires { HasSettled interval (standing left.now.state (contract_tree left.now.contract.now)) settled.now }
    ensures { IfOk result (λ text. TellsSettled most interval (reached_at whole.now left.now)
        (standing settled.now.outcome.state (contract_tree settled.now.outcome.place.now)) json text.items) }
{
    let fixed = fixed(interval, &left.state);
    let outcome = &settled.outcome;
    let offers = offers(alloc, &Plain::new(), outcome.place, &outcome.state, fixed)?;
    let text = offered_text(
        alloc,
        whole,
        left,
        interval,
        settled,
        offers.as_slice(),
        json,
        most,
    );
    beside_dropped(offers, text)
}

// The text, where its cases offer these.
fn offered_text(
    alloc: Global,
    whole: &Contract,
    left: &Left<'_>,
    interval: Interval,
    settled: &Settled<'_>,
    offers: &[Offer],
    json: bool,
    most: Option<usize>,
) -> Result<Vec<u8>, Memory>
    requires settled { HasSettled interval (standing left.now.state (contract_tree left.now.contract.now)) settled.now }
    requires offers { AreOffersThere interval left.now settled.now offers.now }
    ensures { IfOk result (λ text. text.items ≡ printed most json (told_of interval (reached_at whole.now left.now)
        (standing settled.now.outcome.state (contract_tree settled.now.outcome.place.now)) offers.now)) }
{
    let fixed = fixed(interval, &left.state);
    let plain = Plain::new();
    let outcome = &settled.outcome;
    let most = limit(most, json);
    let cases = told_cases(
        alloc,
        &plain,
        outcome.place,
        &outcome.state,
        fixed,
        offers,
        most,
    )?;
    let path = joined(alloc, left.path.as_slice(), settled.path.as_slice())?;
    let keys = path_keys(alloc, &path)?;
    let warned = told_warnings(
        alloc,
        whole,
        left.path.as_slice(),
        settled.warned.as_slice(),
    )?;
    let told = ToldHere {
        path: &keys,
        cases: &cases.told,
        more: cases.more,
        until: waits_until(&plain, outcome.place),
        can_reduce: settled.can_reduce,
        payments: outcome.payments.as_slice(),
        warned: &warned,
    };
    printed(alloc, told, json)
}

// How many inputs are told at most: of JSON all.
fn limit(most: Option<usize>, json: bool) -> Option<usize>
    ensures { result ≡ limit most json }
{
    if json { None } else { most }
}

// One path behind another.
fn joined(alloc: Global, first: &[PathStep], second: &[PathStep]) -> Result<Vec<PathStep>, Memory>
    ensures { IfOk result (λ path. path.items ≡ first.now ++ second.now) }
{
    let mut path = Vec::from_slice(alloc, first)?;
    path.extend_from_slice(second)?;
    Ok(path)
}

// The warnings of a part of a contract that stands at the end of a path.
fn told_warnings(
    alloc: Global,
    whole: &Contract,
    path: &[PathStep],
    warned: &[Warned],
) -> Result<Vec<ToldWarning>, Memory>
    ensures { IfOk result (λ told. map seen_warning told.items ≡ warnings_under (contract_tree whole.now) path.now warned.now) }
{
    let mut told = Vec::new(alloc);
    for warning in warned {
        let next = told_warning(alloc, whole, path, warning)?;
        told.push(next)?;
    }
    Ok(told)
}

fn told_warning(
    alloc: Global,
    whole: &Contract,
    path: &[PathStep],
    warned: &Warned,
) -> Result<ToldWarning, Memory>
    ensures { IfOk result (λ told. seen_warning told ≡ warning_told (contract_tree whole.now) (under path.now warned.now)) }
{
    let place = joined(alloc, path, warned.place.as_slice())?;
    let keys = keys_of(alloc, whole, &place)?;
    let name = warning_name(&warned.warning);
    Ok(ToldWarning { place: keys, name })
}

// One line of JSON, or lines for people.
fn printed(alloc: Global, told: ToldHere<'_>, json: bool) -> Result<Vec<u8>, Memory>
    requires { IfSome told.until IsMoment }
    ensures { IfOk result (λ text. text.items ≡ spelled json (seen told.entry)) }
{
    if json {
        told_json(alloc, told)
    } else {
        told_lines(alloc, told)
    }
}
