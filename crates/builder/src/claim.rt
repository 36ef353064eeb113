//! Claims of payouts.
ghost use Rattle.std.specs.Prelude.{◌≡◌, [], ◌++◌, map, IfOk};
ghost use Rattle.contract.specs.Collections.Answers.{Aside};
ghost use Rattle.builder_spec.specs.EutxoTypes.Fitting.{TxFits};
ghost use Rattle.builder_spec.specs.Holding.{sums, amount_in};
ghost use Rattle.builder_spec.specs.Built.{build_answer};
ghost use Rattle.builder_spec.specs.Laying.{by_key, by_claim, paid_to};
ghost use Rattle.builder_spec.specs.Claims.{claim_front, hinders_claim, layout_claim};
ghost use Rattle.builder_spec.specs.Requests.{claim_request};
ghost use Rattle.coin_selection.specs.Answers.{AnswersCause};

use crate::beside::beside;
use crate::fitting::tx_of;
use crate::inputs::put_keys;
use crate::outputs::put_paid;
use crate::payouts::{check_held, check_payouts, put_claims, tokens_awaited};
use builder_spec::{BuildFault, Output, Spend, Tx, Unspent};
use coin_selection::{Amount, Shares, check_apart, check_signed, front_of, see_all, shares_within};
use contract::{Interval, Items, Memory, Text};
use std::alloc::Global;
use std::marker::Model;

// What is asked for. Clauses see the request.
#[derive(Drop)]
struct ClaimAsked<'a> {
    payouts: &'a [Unspent],
    interval: Interval,
    signers: &'a [Text],
    offered: &'a [Unspent],
    to: &'a Text,
    change: &'a Text,
}

impl<'a> Model for ClaimAsked<'a> {
    ghost use Rattle.std.specs.Coded.{codes};
    ghost use Rattle.builder_spec.specs.EutxoTypes.contracts.output.Output as outputs;
    ghost use Rattle.builder_spec.specs.Requests.{ClaimRequest, claim_request};

    ghost Value = { ClaimRequest };

    ghost coded = { Prim.hlevel (codes, outputs.the_row.coded) };

    ghost view = { λ a.
        claim_request a.payouts.now a.interval a.signers.now a.offered.now a.to.now a.change.now };
}

// What is spent, where nothing hinders the claim.
#[derive(Drop)]
struct ClaimFunds<'a> {
    shares: Shares,
    front: &'a [Unspent],
}

// What is spent, or the first clause that fails.
fn claim_funds<'a>(alloc: Global, asked: &ClaimAsked<'a>) -> Result<ClaimFunds<'a>, BuildFault>
    ensures first { IfOk result (λ funds. funds.shares.first ≡ sums amount_in asked.now.payouts) }
    ensures others { IfOk result (λ funds. funds.shares.others ≡ sums amount_in (claim_front asked.now)) }
    ensures front { IfOk result (λ funds. funds.front.now ≡ claim_front asked.now) }
    ensures passes { AnswersCause result (hinders_claim asked.now) }
{
    let payouts = asked.payouts;
    let offered = asked.offered;
    // touch: amounts are above 0
    see_all(offered);
    see_all(payouts);
    check_payouts(payouts)?;
    check_signed(asked.signers, offered)?;
    let tokens = tokens_awaited(alloc, payouts)?;
    check_held(alloc, &tokens, offered)?;
    let none: &[Amount<'_>] = &[];
    let front = front_of(alloc, &tokens, none, offered)?;
    match shares_within(alloc, payouts, front) {
        Ok(shares) => match check_apart(alloc, payouts, offered) {
            Ok(()) => Ok(ClaimFunds { shares, front }),
            Err(fault) => Err(fault),
        },
        Err(fault) => Err(fault),
    }
}

// What a claim spends: the payouts, and then the front.
fn claim_inputs(
    alloc: Global,
    payouts: &[Unspent],
    front: &[Unspent],
) -> Result<Items<Spend>, Memory>
    ensures { IfOk result (λ inputs. inputs ≡ map by_claim payouts.now ++ map by_key front.now) }
{
    let mut inputs = Items::new(alloc);
    put_claims(&mut inputs, payouts)?;
    put_keys(&mut inputs, front)?;
    Ok(inputs)
}

// What it makes.
fn claim_outputs(
    alloc: Global,
    asked: &ClaimAsked<'_>,
    shares: Shares,
) -> Result<Items<Output>, Memory>
    ensures { IfOk result (λ outputs. outputs ≡ paid_to asked.now.to shares.first ++ paid_to asked.now.change shares.others) }
{
    let Shares { first, others } = shares;
    let mut outputs = Items::new(alloc);
    put_paid(&mut outputs, asked.to, first)?;
    put_paid(&mut outputs, asked.change, others)?;
    Ok(outputs)
}

// The transaction of a claim, from what it spends.
fn lay_out_claim(alloc: Global, asked: &ClaimAsked<'_>, funds: ClaimFunds<'_>) -> Result<Tx, Memory>
    ensures ok { let shares = funds.entry.shares in IfOk result (λ tx. tx ≡ record {
      inputs = map by_claim asked.now.payouts ++ map by_key funds.entry.front.now;
      outputs = paid_to asked.now.to shares.first ++ paid_to asked.now.change shares.others;
      interval = asked.now.interval;
      signers = asked.now.signers;
      datums = [];
    }) }
    ensures fits { IfOk result TxFits }
{
    let ClaimFunds { shares, front } = funds;
    let outputs = claim_outputs(alloc, asked, shares)?;
    let (outputs, inputs) = beside(outputs, claim_inputs(alloc, asked.payouts, front))?;
    let datums = Items::new(alloc);
    tx_of(
        alloc,
        inputs,
        outputs,
        asked.interval,
        asked.signers,
        datums,
    )
}

/// Builds the transaction that claims payouts, in an interval in POSIX milliseconds, signed by these addresses. It
/// spends all the payouts, and then the shortest front of the offered outputs that holds the tokens of their roles.
/// What the payouts hold goes to the key of the address `to`, and what the front holds to that of `change`, each in
/// an output of its own where there is anything. The transaction fits its spelling.
///
/// Refused is a request without payouts or with an output among them that isn't one (`NoThread`), of which an offered
/// output isn't under the key of a signer (`NotSigned`), of which the token of a payout's role isn't offered
/// (`NotAuthorised`), which leaves the limits (`TooMany`), or which names an output twice (`Repeated`): the first of
/// these answers, and nothing else is refused but memory.
pub fn build_claim(
    alloc: Global,
    payouts: &[Unspent],
    interval: Interval,
    signers: &[Text],
    offered: &[Unspent],
    to: &Text,
    change: &Text,
) -> Result<Tx, BuildFault>
    ensures answer { let r = claim_request payouts.now interval signers.now offered.now to.now change.now in
        Aside BuildFault.Memory result (build_answer (hinders_claim r) (layout_claim r)) }
    ensures fits { IfOk result TxFits }
{
    let asked = ClaimAsked {
        payouts,
        interval,
        signers,
        offered,
        to,
        change,
    };
    match claim_funds(alloc, &asked) {
        Ok(funds) => Ok(lay_out_claim(alloc, &asked, funds)?),
        Err(fault) => Err(fault),
    }
}
