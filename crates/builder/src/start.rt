//! Starts of a contract.
ghost use Rattle.std.specs.Prelude.{◌≡◌, false, [], ◌∷◌, Some, if◌then◌else◌, IfOk};
ghost use Rattle.contract.specs.Collections.Answers.{Aside};
ghost use Rattle.contract.specs.Names.Equal.{ada};
ghost use Rattle.builder_spec.specs.EutxoTypes.Fitting.{TxFits};
ghost use Rattle.builder_spec.specs.Roles.Sums.{sums_of};
ghost use Rattle.builder_spec.specs.Eutxo.Faults.{is_empty};
ghost use Rattle.builder_spec.specs.declared.fault.BuildFault.TheVariants.{NoFunds};
ghost use Rattle.builder_spec.specs.Holding.{amount_in, AreBundles};
ghost use Rattle.builder_spec.specs.Causes.{funds_cause, is_much};
ghost use Rattle.builder_spec.specs.Built.{build_answer};
ghost use Rattle.builder_spec.specs.Laying.{paid_to, rest};
ghost use Rattle.builder_spec.specs.Starts.{fresh_state, start_front, start_datum, start_output, hinders_start, layout_start};
ghost use Rattle.builder_spec.specs.Requests.{start_request};
ghost use Rattle.coin_selection.specs.Answers.{AnswersCause};
ghost use Rattle.builder.specs.FundsSupport.{AreStartFunds};

use crate::beside::{alone, beside};
use crate::fitting::tx_of;
use crate::fresh::fresh;
use crate::funds::Funds;
use crate::inputs::key_inputs;
use crate::outputs::{continuing_output, with_change};
use crate::payouts::are_none;
use builder_spec::{BuildFault, Datum, Output, Published, Tx, Unspent};
use coin_selection::{
    Amount, Shares, accounts_of, check_apart, check_funds, check_signed, see_all, see_room,
    shares_within, start_front,
};
use contract::{Bytes, Interval, Items, Memory, State, Text, Token};
use std::alloc::Global;
use std::marker::Model;

// What is asked for. Clauses see the request.
#[derive(Drop)]
struct StartAsked<'a> {
    published: &'a Published,
    state: &'a State,
    interval: Interval,
    signers: &'a [Text],
    offered: &'a [Unspent],
    change: &'a Text,
}

impl<'a> Model for StartAsked<'a> {
    ghost use Rattle.std.specs.Coded.{codes};
    ghost use Rattle.contract.specs.States.contracts.state.State as states;
    ghost use Rattle.builder_spec.specs.EutxoTypes.contracts.output.Output as outputs;
    ghost use Rattle.builder_spec.specs.Roles.contracts.published.Published as publications;
    ghost use Rattle.builder_spec.specs.Requests.{StartRequest, start_request};

    ghost Value = { StartRequest };

    ghost coded = { Prim.hlevel (codes, states.the_row.coded, outputs.the_row.coded, publications.the_row.coded) };

    ghost view = { λ a.
        start_request a.published.now a.state.now a.interval a.signers.now a.offered.now a.change.now };
}

fn ada(alloc: Global) -> Token
    ensures { result ≡ ada }
{
    Token {
        symbol: Bytes::from_vec(Vec::new(alloc)),
        name: Text::from_string(String::new(alloc)),
    }
}

// Something is offered, and as much of each token as the accounts hold.
fn check_start_funds(
    alloc: Global,
    amounts: &[Amount<'_>],
    offered: &[Unspent],
) -> Result<(), BuildFault>
    requires { AreBundles amount_in offered.now }
    ensures { let cause = funds_cause amounts.now offered.now in
        AnswersCause result (if is_empty offered.now then Some (NoFunds ada) else cause) }
{
    if are_none(offered) {
        Err(BuildFault::NoFunds(ada(alloc)))
    } else {
        check_funds(alloc, amounts, offered)
    }
}

// What is spent, or the first clause that fails.
fn start_funds<'a>(alloc: Global, asked: &StartAsked<'a>) -> Result<Funds<'a>, BuildFault>
    ensures funds { IfOk result (AreStartFunds asked.now) }
    ensures passes { AnswersCause result (hinders_start asked.now) }
{
    let offered = asked.offered;
    // touch: amounts are above 0
    see_all(offered);
    check_signed(asked.signers, offered)?;
    let amounts = accounts_of(alloc, asked.state)?;
    check_start_funds(alloc, &amounts, offered)?;
    let front = start_front(alloc, &amounts, offered)?;
    let none: &[Unspent] = &[];
    match shares_within(alloc, none, front) {
        Ok(shares) => match check_apart(alloc, none, offered) {
            Ok(()) => {
                let Shares { others, .. } = shares;
                Ok(Funds { all: others, front })
            }
            Err(fault) => Err(fault),
        },
        Err(fault) => Err(fault),
    }
}

// The datum at which the contract starts.
fn start_datum(alloc: Global, asked: &StartAsked<'_>) -> Result<Datum, Memory>
    ensures { IfOk result (λ datum. datum ≡ start_datum asked.now) }
{
    let state = fresh(alloc, asked.state)?;
    Ok(Datum {
        cont: asked.published.root,
        state,
    })
}

// The contract's output, at its datum.
fn start_output(
    alloc: Global,
    asked: &StartAsked<'_>,
    datum: &Datum,
) -> Result<Items<Output>, Memory>
    requires of { datum.now ≡ start_datum asked.now }
    requires room { is_much (sums_of (fresh_state asked.now.state)) ≡ false }
    ensures { IfOk result (λ outputs. outputs ≡ start_output asked.now ∷ []) }
{
    let output = continuing_output(alloc, &asked.published.id, datum)?;
    alone(alloc, output)
}

// What a start makes: the contract's output, at its datum, and the change.
fn start_outputs(
    alloc: Global,
    asked: &StartAsked<'_>,
    funds: Funds<'_>,
    datum: &Datum,
) -> Result<Items<Output>, Memory>
    requires funds { AreStartFunds asked.now funds }
    requires of { datum.now ≡ start_datum asked.now }
    ensures { let r = asked.now in
        IfOk result (λ outputs. outputs ≡ start_output r ∷ paid_to r.change (rest (start_front r) (start_output r ∷ []))) }
{
    let Funds { all, .. } = funds;
    // touch: there is room for what is spent
    see_room(&all);
    let outputs = start_output(alloc, asked, datum)?;
    with_change(alloc, outputs, all, asked.change)
}

// The transaction of a start that nothing hinders.
fn lay_out_start(alloc: Global, asked: &StartAsked<'_>, funds: Funds<'_>) -> Result<Tx, Memory>
    requires { AreStartFunds asked.now funds }
    ensures ok { IfOk result (λ tx. tx ≡ layout_start asked.now) }
    ensures fits { IfOk result TxFits }
{
    let front = funds.front;
    let (funds, datum) = beside(funds, start_datum(alloc, asked))?;
    let outputs = start_outputs(alloc, asked, funds, &datum);
    let (datum, outputs) = beside(datum, outputs)?;
    let (outputs, datums) = beside(outputs, alone(alloc, datum))?;
    let (parts, inputs) = beside((outputs, datums), key_inputs(alloc, front))?;
    let (outputs, datums) = parts;
    tx_of(
        alloc,
        inputs,
        outputs,
        asked.interval,
        asked.signers,
        datums,
    )
}

/// Builds the transaction that starts a published contract with the accounts and the minimum time of a state, in an
/// interval in POSIX milliseconds, signed by these addresses. It spends the shortest front of the offered outputs that
/// covers the accounts and has one output at least. The contract's output comes first, with what the accounts hold;
/// what is left goes to the key of the address `change`. The contract's datum is brought. The transaction fits its
/// spelling.
///
/// Refused is a request of which an offered output isn't under the key of a signer (`NotSigned`), which isn't funded
/// (`NoFunds`: of ada where nothing is offered), which leaves the limits (`TooMany`), or which names an output twice
/// (`Repeated`): the first of these answers, and nothing else is refused but memory.
pub fn build_start(
    alloc: Global,
    published: &Published,
    state: &State,
    interval: Interval,
    signers: &[Text],
    offered: &[Unspent],
    change: &Text,
) -> Result<Tx, BuildFault>
    ensures answer { let r = start_request published.now state.now interval signers.now offered.now change.now in
        Aside BuildFault.Memory result (build_answer (hinders_start r) (layout_start r)) }
    ensures fits { IfOk result TxFits }
{
    let asked = StartAsked {
        published,
        state,
        interval,
        signers,
        offered,
        change,
    };
    match start_funds(alloc, &asked) {
        Ok(funds) => Ok(lay_out_start(alloc, &asked, funds)?),
        Err(fault) => Err(fault),
    }
}
