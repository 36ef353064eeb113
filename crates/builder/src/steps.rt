//! Steps of several threads in one transaction.
ghost use Rattle.std.specs.Prelude.{◌≡◌, ◌++◌, ◌<◌, true, not, length, nat_lt, get_or, map};
ghost use Rattle.std.specs.Prelude.{IfOk, OnOk, option_map, option_copied};
ghost use Rattle.std.specs.List.{list_any};
ghost use Rattle.contract.specs.Collections.Answers.{Aside};
ghost use Rattle.builder_spec.specs.Semantics.Walk.{answer_of};
ghost use Rattle.builder_spec.specs.Bundle.Bundles.{covers, minus};
ghost use Rattle.builder_spec.specs.EutxoTypes.Fitting.{TxFits};
ghost use Rattle.builder_spec.specs.Built.{build_answer};
ghost use Rattle.builder_spec.specs.Holding.{sums, amount_in, AreBundles};
ghost use Rattle.builder_spec.specs.Laying.{by_key, by_step, paid_to};
ghost use Rattle.builder_spec.specs.Steps.{own_output, semantics_cause, authority_cause};
ghost use Rattle.builder_spec.specs.Parts.{same_published, has_clash, stepped_in, threads_of};
ghost use Rattle.builder_spec.specs.Parts.{all_roles, all_deposits, own_outputs};
ghost use Rattle.builder_spec.specs.Parts.{part_walk, parts_semantics_cause, parts_authority_cause, parts_limit_cause};
ghost use Rattle.builder_spec.specs.Parts.{hinders_threads, layout_threads, hinders_steps, layout_steps};
ghost use Rattle.builder_spec.specs.Requests.{steps_request};
ghost use Rattle.coin_selection.specs.Answers.{AnswersCause};
ghost use Rattle.builder.specs.ClashSupport.{kept, IsPut};
ghost use Rattle.builder.specs.PartsSupport.{stepped_at, parts_causes_after_contracts, ArePartsFunds, IsStanding};
ghost use Rattle.builder.specs.PartsSupport.{AreStanding, IsOutcome, AreOutcomes, IsPositive, ArePositive, HaveRoom};
ghost use Rattle.builder.specs.PartsSupport.{outcomes_outputs, data_after, outcomes_data, AreFinished};

use crate::beside::beside;
use crate::fitting::tx_of;
use crate::funds::Funds;
use crate::inputs::{by_step, put_keys};
use crate::outputs::{put_block, with_change};
use crate::parts::Part;
use crate::thread::{ThreadAt, thread_of};
use builder_spec::{
    BuildFault, Bundle, Cont, Datum, Output, Published, Spend, ThreadOutput, Tx, Unspent, compute,
    money_is_kept, payments_are_natural, transactions_end_quiet,
};
use coin_selection::{
    Amount, OwnOutput, RoleToken, check_authorised, check_funds, check_owned_once, check_signed,
    front_of, owned_within, put_deposits, put_roles, see_all, see_room,
};
use contract::{Input, Interval, Items, Memory, Outcome, Same, SemFault, Text, TryClone};
use std::alloc::Global;
use std::collections::HashMap;
use std::marker::Model;

// How many parts there may be, and how many inputs of one.
const MOST_PARTS: usize = 8;

const MOST_INPUTS: usize = 256;

// What is asked for. Clauses see the request.
#[derive(Drop)]
struct StepsAsked<'a> {
    parts: &'a [Part<'a>],
    interval: Interval,
    signers: &'a [Text],
    offered: &'a [Unspent],
    change: &'a Text,
}

impl<'a> Model for StepsAsked<'a> {
    ghost use Rattle.std.specs.Coded.{codes};
    ghost use Rattle.builder_spec.specs.EutxoTypes.contracts.output.Output as outputs;
    ghost use Rattle.builder_spec.specs.Ledger.contracts.look.Look as looks;
    ghost use Rattle.builder_spec.specs.Requests.{StepsRequest, steps_request};

    ghost Value = { StepsRequest };

    ghost coded = { Prim.hlevel (codes, outputs.the_row.coded, looks.the_row.coded) };

    ghost view = { λ a. steps_request a.parts.now a.interval a.signers.now a.offered.now a.change.now };
}

// A part whose thread stands. Clauses see both.
#[derive(Drop)]
struct SteppedAt<'a> {
    thread: ThreadAt<'a>,
    inputs: &'a [Input],
}

impl<'a> Model for SteppedAt<'a> {
    ghost use Rattle.std.specs.Coded.{codes};
    ghost use Rattle.builder_spec.specs.Machine.contracts.datum.Datum as datums;
    ghost use Rattle.builder_spec.specs.Ledger.contracts.look.ThreadOutput as threads;
    ghost use Rattle.contract.specs.contracts.input.Input as given;
    ghost use Rattle.builder_spec.specs.Steps.{Stepped};

    ghost Value = { Stepped };

    ghost coded = { Prim.hlevel (codes, datums.the_row.coded, threads.the_row.coded, given.the_row.coded) };

    ghost view = { λ a. record { thread = a.thread; inputs = a.inputs.now } };
}

impl<'a> SteppedAt<'a> {
    fn shown(&self) -> &'a ThreadOutput
        ensures { result.now ≡ self.now.thread.shown }
    {
        self.thread.shown
    }

    fn published(&self) -> &'a Published
        ensures { result.now ≡ self.now.thread.shown.published }
    {
        self.shown().published.get()
    }

    fn datum(&self) -> &'a Datum
        ensures { result.now ≡ self.now.thread.datum }
    {
        self.thread.datum
    }
}

// ---- 1

fn are_other(a: &Published, b: &Published) -> bool
    ensures { result ≡ not (same_published a.now b.now) }
{
    !a.same(b)
}

fn step_at<'s, 'a>(steps: &'s [SteppedAt<'a>], at: usize) -> &'s SteppedAt<'a>
    requires { at < length steps.now }
    ensures { result.now ≡ get_or steps.now at result.now }
{
    &steps[at]
}

// Puts a published object into a map, and answers what was there under its script.
fn put_published<'a>(
    later: &mut HashMap<[u8; 32], &'a Published>,
    published: &'a Published,
) -> Result<Option<&'a Published>, Memory>
    ensures was { IfOk result (λ was. option_copied was ≡ kept later.old published.now.id) }
    ensures put { OnOk result (IsPut (kept later.old) (kept later.new) published.now) }
{
    let was = later.insert(published.id, published)?;
    Ok(was)
}

// Each step is compared with the next one of its script.
fn has_clash(alloc: Global, steps: &[SteppedAt<'_>]) -> Result<bool, Memory>
    ensures { IfOk result (λ answer. answer ≡ has_clash steps.now) }
{
    let mut later = HashMap::new(alloc);
    for i in (0..steps.len()).rev() {
        let published = step_at(steps, i).published();
        match put_published(&mut later, published) {
            Ok(Some(next)) => {
                if are_other(published, next) {
                    return Ok(true);
                }
            }
            Ok(None) => {}
            Err(refused) => return Err(refused),
        }
    }
    Ok(false)
}

fn stepped_at<'a>(alloc: Global, part: &Part<'a>) -> Result<Option<SteppedAt<'a>>, Memory>
    ensures { IfOk result (λ step. step ≡ stepped_at part.now) }
{
    let look = part.look;
    let inputs = part.inputs;
    match &look.thread {
        None => Ok(None),
        Some(shown) => match thread_of(alloc, shown)? {
            None => Ok(None),
            Some(thread) => Ok(Some(SteppedAt { thread, inputs })),
        },
    }
}

// The threads of parts, where each look shows one that stands.
fn stepped_in<'a>(
    alloc: Global,
    parts: &'a [Part<'a>],
) -> Result<Option<Vec<SteppedAt<'a>>>, Memory>
    ensures { IfOk result (λ found. option_map (λ steps. steps.items) found ≡ stepped_in parts.now) }
{
    let mut steps = Vec::new(alloc);
    for part in parts {
        match stepped_at(alloc, part)? {
            None => return Ok(None),
            Some(step) => steps.push(step)?,
        }
    }
    Ok(Some(steps))
}

// The threads of parts, where there are parts, each look shows one that stands, and no two show different publications
// under one script.
fn threads_of<'a>(
    alloc: Global,
    parts: &'a [Part<'a>],
) -> Result<Option<Vec<SteppedAt<'a>>>, Memory>
    ensures { IfOk result (λ found. option_map (λ steps. steps.items) found ≡ threads_of parts.now) }
{
    match stepped_in(alloc, parts)? {
        Some(steps) => {
            if steps.is_empty() || has_clash(alloc, &steps)? {
                Ok(None)
            } else {
                Ok(Some(steps))
            }
        }
        None => Ok(None),
    }
}

// ---- 2

// What a contract makes of its inputs, or its fault.
fn outcome_of(
    alloc: Global,
    asked: &StepsAsked<'_>,
    step: &SteppedAt<'_>,
) -> Result<Outcome<Cont>, BuildFault>
    requires { IsStanding step.now }
    ensures outcome { IfOk result (IsOutcome asked.now step.now) }
    ensures passes { AnswersCause result (semantics_cause (answer_of (part_walk asked.now step.now))) }
{
    let published = step.published();
    // touch: turns lead to a number
    published.table.turns_lead();
    match compute(
        alloc,
        &published.table,
        step.datum(),
        asked.interval,
        step.inputs,
    ) {
        Ok(outcome) => Ok(outcome),
        Err(SemFault::Memory) => Err(BuildFault::Memory),
        Err(fault) => Err(BuildFault::Semantics(fault)),
    }
}

// What each contract makes of its inputs, or the fault of the first that refuses.
fn outcomes_of(
    alloc: Global,
    asked: &StepsAsked<'_>,
    steps: &[SteppedAt<'_>],
) -> Result<Vec<Outcome<Cont>>, BuildFault>
    requires { AreStanding steps.now }
    ensures outcomes { IfOk result (λ outcomes. AreOutcomes asked.now steps.now outcomes.items) }
    ensures passes { AnswersCause result (parts_semantics_cause asked.now steps.now) }
{
    let mut outcomes = Vec::new(alloc);
    for step in steps {
        match outcome_of(alloc, asked, step) {
            Ok(outcome) => outcomes.push(outcome)?,
            Err(fault) => return Err(fault),
        }
    }
    Ok(outcomes)
}

// ---- 3 to 7

// Each party that a part's inputs need may act.
fn check_actor(
    alloc: Global,
    asked: &StepsAsked<'_>,
    step: &SteppedAt<'_>,
) -> Result<(), BuildFault>
    requires { AreBundles amount_in asked.now.offered }
    ensures { let currency = step.now.thread.shown.published.currency in
        AnswersCause result (authority_cause currency asked.now.signers asked.now.offered step.now.inputs) }
{
    let currency = &step.published().currency;
    check_authorised(alloc, currency, asked.signers, asked.offered, step.inputs)
}

// 4: of the parts, the first of which a party may not act.
fn check_actors(
    alloc: Global,
    asked: &StepsAsked<'_>,
    steps: &[SteppedAt<'_>],
) -> Result<(), BuildFault>
    requires { AreBundles amount_in asked.now.offered }
    ensures { AnswersCause result (parts_authority_cause asked.now steps.now) }
{
    for step in steps {
        match check_actor(alloc, asked, step) {
            Ok(()) => {}
            Err(fault) => return Err(fault),
        }
    }
    Ok(())
}

fn all_deposits<'a>(alloc: Global, steps: &[SteppedAt<'a>]) -> Result<Vec<Amount<'a>>, Memory>
    ensures { IfOk result (λ amounts. amounts.items ≡ all_deposits steps.now) }
{
    let mut amounts = Vec::new(alloc);
    for step in steps {
        put_deposits(&mut amounts, step.inputs)?;
    }
    Ok(amounts)
}

fn all_roles<'a>(alloc: Global, steps: &[SteppedAt<'a>]) -> Result<Vec<RoleToken<'a>>, Memory>
    ensures { IfOk result (λ roles. roles.items ≡ all_roles steps.now) }
{
    let mut roles = Vec::new(alloc);
    for step in steps {
        put_roles(&mut roles, &step.published().currency, step.inputs)?;
    }
    Ok(roles)
}

fn own_outputs<'a>(alloc: Global, steps: &[SteppedAt<'a>]) -> Result<Vec<OwnOutput<'a>>, Memory>
    ensures { IfOk result (λ owns. owns.items ≡ own_outputs steps.now) }
{
    let mut owns = Vec::new(alloc);
    for step in steps {
        owns.push(step.thread.own_output())?;
    }
    Ok(owns)
}

fn has_many_inputs(step: &SteppedAt<'_>) -> bool
    ensures { result ≡ nat_lt 256 (length step.now.inputs) }
{
    step.inputs.len() > MOST_INPUTS
}

fn any_has_many_inputs(steps: &[SteppedAt<'_>]) -> bool
    ensures { result ≡ list_any (λ s. nat_lt 256 (length s.inputs)) steps.now }
{
    steps.iter().any(|step| has_many_inputs(step))
}

// 6: what the threads' outputs and the front hold together, within the limits.
fn within_limits(
    alloc: Global,
    steps: &[SteppedAt<'_>],
    owns: &[OwnOutput<'_>],
    front: &[Unspent],
) -> Result<Bundle, BuildFault>
    requires { AreBundles amount_in front.now }
    ensures all { IfOk result (λ all. all ≡ sums amount_in (owns.now ++ front.now)) }
    ensures passes { AnswersCause result (parts_limit_cause steps.now (owns.now ++ front.now)) }
{
    if steps.len() > MOST_PARTS || any_has_many_inputs(steps) {
        return Err(BuildFault::TooMany);
    }
    owned_within(alloc, owns, front)
}

// What is spent, or the first of the clauses on signers, parties, funds, limits and repeats that fails.
fn steps_funds<'a>(
    alloc: Global,
    asked: &StepsAsked<'a>,
    steps: &[SteppedAt<'_>],
) -> Result<Funds<'a>, BuildFault>
    ensures funds { IfOk result (ArePartsFunds asked.now steps.now) }
    ensures passes { AnswersCause result (parts_causes_after_contracts asked.now steps.now) }
{
    let offered = asked.offered;
    // touch: amounts are above 0
    see_all(offered);
    check_signed(asked.signers, offered)?;
    check_actors(alloc, asked, steps)?;
    let amounts = all_deposits(alloc, steps)?;
    check_funds(alloc, &amounts, offered)?;
    let roles = all_roles(alloc, steps)?;
    let front = front_of(alloc, &roles, &amounts, offered)?;
    let owns = own_outputs(alloc, steps)?;
    match within_limits(alloc, steps, &owns, front) {
        Ok(all) => match check_owned_once(alloc, &owns, offered) {
            Ok(()) => Ok(Funds { all, front }),
            Err(fault) => Err(fault),
        },
        Err(fault) => Err(fault),
    }
}

// ---- the layout

// What a thread's output holds, and what is in its accounts, is above 0. It does nothing.
fn see_thread(step: &SteppedAt<'_>)
    ensures { IsPositive step.now }
{
    // touch: both
    let _ = step.datum().state.accounts();
    let _ = step.shown().output.amount.entries();
}

// So it is of all threads. It does nothing.
fn see_threads(steps: &[SteppedAt<'_>])
    ensures { ArePositive steps.now }
{
    // touch: of each
    for step in steps {
        see_thread(step);
    }
}

// The threads' data.
fn own_data(alloc: Global, steps: &[SteppedAt<'_>]) -> Result<Items<Datum>, Memory>
    ensures { IfOk result (λ datums. datums ≡ map (λ s. s.thread.datum) steps.now) }
{
    let mut datums = Items::new(alloc);
    for step in steps {
        datums.push(step.datum().try_clone()?)?;
    }
    Ok(datums)
}

// Puts the outputs of all blocks behind others, and so the data from which contracts go on.
fn put_blocks(
    alloc: Global,
    outputs: &mut Items<Output>,
    datums: &mut Items<Datum>,
    steps: &[SteppedAt<'_>],
    mut outcomes: Vec<Outcome<Cont>>,
) -> Result<(), Memory>
    requires { HaveRoom steps.now outcomes.items }
    ensures outputs { OnOk result (outputs.new ≡ outputs.old ++ outcomes_outputs steps.now outcomes.items) }
    ensures datums { OnOk result (datums.new ≡ datums.old ++ data_after steps.now outcomes.items) }
{
    for step in steps {
        let outcome = outcomes.remove(0);
        let published = step.published();
        let closed = published.table.is_close(outcome.place);
        put_block(alloc, outputs, datums, published, closed, outcome)?;
    }
    Ok(())
}

// The outputs of all blocks, and the data that are brought: those of the threads, and then those from which contracts
// go on.
fn blocks_of(
    alloc: Global,
    steps: &[SteppedAt<'_>],
    outcomes: Vec<Outcome<Cont>>,
) -> Result<(Items<Output>, Items<Datum>), Memory>
    requires { HaveRoom steps.now outcomes.items }
    ensures outputs { IfOk result (λ made. made.0 ≡ outcomes_outputs steps.now outcomes.items) }
    ensures datums { IfOk result (λ made. made.1 ≡ outcomes_data steps.now outcomes.items) }
{
    let (outcomes, mut datums) = beside(outcomes, own_data(alloc, steps))?;
    let mut outputs = Items::new(alloc);
    put_blocks(alloc, &mut outputs, &mut datums, steps, outcomes)?;
    Ok((outputs, datums))
}

// Puts the inputs that spend the threads' outputs behind others.
fn put_steps(
    alloc: Global,
    spends: &mut Items<Spend>,
    steps: &[SteppedAt<'_>],
) -> Result<(), Memory>
    ensures { OnOk result (spends.new ≡ spends.old ++ map (λ s. by_step s.inputs (own_output s.thread)) steps.now) }
{
    for step in steps {
        spends.push(by_step(alloc, &step.thread.own_output(), step.inputs)?)?;
    }
    Ok(())
}

// What steps spend: the threads' outputs, and then the front.
fn step_inputs(
    alloc: Global,
    steps: &[SteppedAt<'_>],
    front: &[Unspent],
) -> Result<Items<Spend>, Memory>
    ensures { IfOk result (λ inputs. inputs ≡ map (λ s. by_step s.inputs (own_output s.thread)) steps.now ++ map by_key front.now) }
{
    let mut inputs = Items::new(alloc);
    put_steps(alloc, &mut inputs, steps)?;
    put_keys(&mut inputs, front)?;
    Ok(inputs)
}

// The transaction of steps, from what they spend, what they make but for the change, and the data that they bring.
fn lay_out_steps(
    alloc: Global,
    asked: &StepsAsked<'_>,
    steps: &[SteppedAt<'_>],
    funds: Funds<'_>,
    outputs: Items<Output>,
    datums: Items<Datum>,
) -> Result<Tx, Memory>
    requires { covers funds.all (sums (λ o. o.amount) outputs) ≡ true }
    ensures ok { IfOk result (λ tx. tx ≡ record {
      inputs = map (λ s. by_step s.inputs (own_output s.thread)) steps.now ++ map by_key funds.entry.front;
      outputs = outputs ++ paid_to asked.now.change (minus funds.entry.all (sums (λ o. o.amount) outputs));
      interval = asked.now.interval;
      signers = asked.now.signers;
      datums = datums;
    }) }
    ensures fits { IfOk result TxFits }
{
    let Funds { all, front } = funds;
    let (datums, outputs) = beside(datums, with_change(alloc, outputs, all, asked.change))?;
    let (parts, inputs) = beside((outputs, datums), step_inputs(alloc, steps, front))?;
    let (outputs, datums) = parts;
    tx_of(
        alloc,
        inputs,
        outputs,
        asked.interval,
        asked.signers,
        datums,
    )
}

// The transaction of steps that nothing hinders.
fn finish(
    alloc: Global,
    asked: &StepsAsked<'_>,
    steps: &[SteppedAt<'_>],
    funds: Funds<'_>,
    outcomes: Vec<Outcome<Cont>>,
) -> Result<Tx, Memory>
    requires { AreFinished asked.now steps.now funds outcomes.items }
    ensures ok { IfOk result (λ tx. tx ≡ layout_threads asked.now steps.now) }
    ensures fits { IfOk result TxFits }
{
    money_is_kept();
    transactions_end_quiet();
    payments_are_natural();
    // touch: amounts and accounts are above 0, and there is room for what is spent
    see_threads(steps);
    see_room(&funds.all);
    match blocks_of(alloc, steps, outcomes) {
        Ok((outputs, datums)) => lay_out_steps(alloc, asked, steps, funds, outputs, datums),
        Err(refused) => Err(refused),
    }
}

// Builds on threads that stand.
fn build_on(
    alloc: Global,
    asked: &StepsAsked<'_>,
    steps: &[SteppedAt<'_>],
) -> Result<Tx, BuildFault>
    requires { AreStanding steps.now }
    ensures answer { let r = asked.now in
        Aside BuildFault.Memory result (build_answer (hinders_threads r steps.now) (layout_threads r steps.now)) }
    ensures fits { IfOk result TxFits }
{
    match outcomes_of(alloc, asked, steps) {
        Ok(outcomes) => match steps_funds(alloc, asked, steps) {
            Ok(funds) => Ok(finish(alloc, asked, steps, funds, outcomes)?),
            Err(fault) => Err(fault),
        },
        Err(fault) => Err(fault),
    }
}

/// Builds the transaction that steps the threads of these parts, at most 8, in an interval in POSIX milliseconds,
/// signed by these addresses: each with its own inputs, all or none. It spends the threads' outputs in the order of the
/// parts, and then the shortest front of the offered outputs that holds the tokens of all roles which the inputs need,
/// each of its contract's currency, and covers the sum of all deposits. What it makes stands in blocks, one for each
/// part: the output in which its contract goes on, unless it is Close, and then the payments that are due to parties.
/// What is left goes to the key of the address `change`. The threads' data are brought, and then those from which
/// contracts go on. The transaction fits its spelling.
///
/// Refused is a request without parts, with one for which there is no thread, or with two that show different
/// publications under one script (`NoThread`); of which a contract refuses (`Semantics`), an offered output isn't under
/// the key of a signer (`NotSigned`), a party doesn't sign and has no role token among what is offered
/// (`NotAuthorised`); which isn't funded (`NoFunds`), has more than 8 parts or leaves the limits (`TooMany`), or names
/// a thread or an output twice (`Repeated`). The first of these answers, of all parts, and of one of them the first
/// part of which it stands; nothing else is refused but memory. The ticks of the looks aren't read.
pub fn build_steps(
    alloc: Global,
    parts: &[Part<'_>],
    interval: Interval,
    signers: &[Text],
    offered: &[Unspent],
    change: &Text,
) -> Result<Tx, BuildFault>
    ensures answer { let r = steps_request parts.now interval signers.now offered.now change.now in
        Aside BuildFault.Memory result (build_answer (hinders_steps r) (layout_steps r)) }
    ensures fits { IfOk result TxFits }
{
    let asked = StepsAsked {
        parts,
        interval,
        signers,
        offered,
        change,
    };
    match threads_of(alloc, parts) {
        Ok(None) => Err(BuildFault::NoThread),
        Ok(Some(steps)) => build_on(alloc, &asked, &steps),
        Err(_) => Err(BuildFault::Memory),
    }
}
