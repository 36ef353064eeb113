//! Payouts that are claimed.
ghost use Rattle.std.specs.Prelude.{◌≡◌, ◌++◌, not, IfOk, OnOk, map};
ghost use Rattle.std.specs.List.{list_any};
ghost use Rattle.builder_spec.specs.EutxoTypes.Parts.{is_payout};
ghost use Rattle.builder_spec.specs.Eutxo.Faults.{is_empty};
ghost use Rattle.builder_spec.specs.Holding.{amount_in, AreBundles};
ghost use Rattle.builder_spec.specs.Laying.{by_claim};
ghost use Rattle.builder_spec.specs.Claims.{awaited_token, tokens_awaited, payout_cause, unheld_cause};
ghost use Rattle.coin_selection.specs.Answers.{AnswersCause};

use builder_spec::{BuildFault, Lock, Redeemer, Spend, Unspent};
use coin_selection::{RoleToken, first_unheld};
use contract::{Items, Memory, Party, TryClone};
use std::alloc::Global;

fn any_other(payouts: &[Unspent]) -> bool
    ensures { result ≡ list_any (λ u. not (is_payout u.output.lock)) payouts.now }
{
    payouts.iter().any(|u| !u.output.lock.is_payout())
}

/// Whether there are none of these.
pub(crate) fn are_none(outputs: &[Unspent]) -> bool
    ensures { result ≡ is_empty outputs.now }
{
    match outputs {
        [] => true,
        [_, ..] => false,
    }
}

/// There are payouts, and they alone.
pub(crate) fn check_payouts(payouts: &[Unspent]) -> Result<(), BuildFault>
    ensures { AnswersCause result (payout_cause payouts.now) }
{
    if are_none(payouts) || any_other(payouts) {
        Err(BuildFault::NoThread)
    } else {
        Ok(())
    }
}

fn awaited(lock: &Lock) -> Option<RoleToken<'_>>
    ensures { result ≡ awaited_token lock.now }
{
    match lock.payout() {
        None => None,
        Some(payout) => Some(RoleToken::new(payout.currency, payout.role)),
    }
}

/// The tokens for which payouts wait, in order.
pub(crate) fn tokens_awaited(
    alloc: Global,
    payouts: &[Unspent],
) -> Result<Vec<RoleToken<'_>>, Memory>
    ensures { IfOk result (λ tokens. tokens.items ≡ tokens_awaited payouts.now) }
{
    let mut tokens = Vec::new(alloc);
    for payout in payouts {
        if let Some(token) = awaited(&payout.output.lock) {
            tokens.push(token)?;
        }
    }
    Ok(tokens)
}

/// Each of these tokens is held.
pub(crate) fn check_held(
    alloc: Global,
    tokens: &[RoleToken<'_>],
    outputs: &[Unspent],
) -> Result<(), BuildFault>
    requires { AreBundles amount_in outputs.now }
    ensures { AnswersCause result (unheld_cause outputs.now tokens.now) }
{
    match first_unheld(alloc, tokens, outputs)? {
        None => Ok(()),
        Some(role) => match role.try_clone() {
            Ok(role) => Err(BuildFault::NotAuthorised(Party::Role(role))),
            Err(_) => Err(BuildFault::Memory),
        },
    }
}

fn by_claim(payout: &Unspent) -> Spend
    ensures { result ≡ by_claim payout.now }
{
    Spend {
        reference: payout.reference,
        redeemer: Redeemer::Claim,
    }
}

/// Puts the inputs that claim payouts behind others.
pub(crate) fn put_claims(spends: &mut Items<Spend>, payouts: &[Unspent]) -> Result<(), Memory>
    ensures { OnOk result (spends.new ≡ spends.old ++ map by_claim payouts.now) }
{
    for payout in payouts {
        spends.push(by_claim(payout))?;
    }
    Ok(())
}
