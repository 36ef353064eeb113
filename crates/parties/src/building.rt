//! What an intent asks for, and what is built of what it is shown.
ghost use Rattle.std.specs.Prelude.{◌≡◌, ◌≢◌, map, Err, IfOk};
ghost use Rattle.hub.specs.Ledger.declared.call.Reply.TheVariants as replies;
ghost use Rattle.parties.specs.Plays.{step_ask, claim_ask, step_made, steps_made, claim_made, offered_by, parts_of, asks_of, made_of};
ghost use Rattle.parties.specs.PlaysSupport.{AreShown, replies_of};

use builder::{
    Ask, BuildFault, Look, Part, PayoutLock, Unspent, build_claim, build_step, build_steps,
    resolve_parts,
};
use contract::{Bytes, Input, Interval, Items, Memory, Text, TryClone};
use hub::{Checked, OutputRef, Published, Receipt, Reply, Session, Tx, check_owned};
use plans::{Intent, Plan};
use std::alloc::{AllocError, Global};
use std::marker::Model;

/// A look that a party was shown, lent. Clauses see the look.
#[derive(Drop)]
pub(crate) struct Shown<'a> {
    pub(crate) look: &'a Look,
}

impl<'a> Model for Shown<'a> {
    ghost use Rattle.std.specs.Coded.{codes};
    ghost use Rattle.hub.specs.Ledger.contracts.look.Look as looks;
    ghost use Rattle.hub.specs.Ledger.declared.look.Look.{Look};

    ghost Value = { Look };

    ghost coded = { Prim.hlevel (codes, looks.the_row.coded) };

    ghost view = { λ a. a.look.now };
}

// ---- what is asked

// The lock of the payouts to a role.
fn lock_of(currency: &Bytes, role: &Text) -> Result<PayoutLock, Memory>
    ensures { IfOk result (λ lock. (lock.currency ≡ currency.now) × (lock.role ≡ role.now)) }
{
    let currency = currency.try_clone()?;
    let role = role.try_clone()?;
    Ok(PayoutLock { currency, role })
}

// What a claim asks to be shown.
fn claim_ask(alloc: Global, plan: &Plan<OutputRef, Bytes>, lock: PayoutLock) -> Result<Ask, Memory>
    ensures { IfOk result (λ ask. ask ≡ claim_ask plan.now lock.currency lock.role) }
{
    let mut payouts = Items::new(alloc);
    payouts.push(lock)?;
    let own = plan.keys.try_clone()?;
    Ok(Ask {
        thread: None,
        keys: own,
        payouts,
    })
}

// What a step of a thread asks to be shown.
fn step_ask(alloc: Global, plan: &Plan<OutputRef, Bytes>, thread: OutputRef) -> Result<Ask, Memory>
    ensures { IfOk result (λ ask. ask ≡ step_ask plan.now thread) }
{
    let keys = plan.keys.try_clone()?;
    Ok(Ask {
        thread: Some(thread),
        keys,
        payouts: Items::new(alloc),
    })
}

// What steps of several threads ask to be shown, in order.
fn step_asks(
    alloc: Global,
    plan: &Plan<OutputRef, Bytes>,
    steps: &[(OutputRef, Items<Input>)],
) -> Result<Vec<Ask>, Memory>
    ensures { IfOk result (λ asks. asks.items ≡ map (λ s. step_ask plan.now s.0) steps.now) }
{
    let mut asks = Vec::new(alloc);
    for step in steps {
        asks.push(step_ask(alloc, plan, step.0)?)?;
    }
    Ok(asks)
}

/// What an intent asks to be shown before anything is built, in order. A round and an advance ask nothing.
pub(crate) fn asks_of(
    alloc: Global,
    plan: &Plan<OutputRef, Bytes>,
    intent: &Intent<OutputRef, Bytes>,
) -> Result<Vec<Ask>, Memory>
    ensures { IfOk result (λ asks. asks.items ≡ asks_of plan.now intent.now) }
{
    let mut asks = Vec::new(alloc);
    match intent {
        Intent::Step { thread, .. } => {
            asks.push(step_ask(alloc, plan, *thread)?)?;
            Ok(asks)
        }
        Intent::Steps { steps, .. } => step_asks(alloc, plan, steps.as_slice()),
        Intent::Claim { contract, role, .. } => {
            let lock = lock_of(contract, role)?;
            asks.push(claim_ask(alloc, plan, lock)?)?;
            Ok(asks)
        }
        Intent::Round { .. } => Ok(asks),
        Intent::Advance(_) => Ok(asks),
    }
}

/// The looks that receipts show, in order.
pub(crate) fn looks_in<'a, J: Session>(
    alloc: Global,
    shown: &'a [Receipt<J>],
) -> Result<Vec<Shown<'a>>, Memory>
    requires { AreShown shown.now }
    ensures { IfOk result (λ looks. replies_of shown.now ≡ map replies.Look looks.items) }
{
    let mut looks = Vec::new(alloc);
    for receipt in shown {
        match receipt.reply() {
            Reply::Look(look) => looks.push(Shown { look })?,
            _ => unreachable!(),
        }
    }
    Ok(looks)
}

// ---- what is built

// A builder's answer, unless it was refused memory.
fn or_memory(built: Result<Tx, BuildFault>) -> Result<Result<Tx, BuildFault>, Memory>
    ensures is { IfOk result (λ made. made ≡ built) }
    ensures whole { IfOk result (λ made. made ≢ Err BuildFault.Memory) }
{
    match built {
        Ok(tx) => Ok(Ok(tx)),
        Err(BuildFault::Memory) => Err(AllocError),
        Err(fault) => Ok(Err(fault)),
    }
}

fn step_of(
    alloc: Global,
    plan: &Plan<OutputRef, Bytes>,
    inputs: &[Input],
    interval: Interval,
    look: &Look,
) -> Result<Result<Tx, BuildFault>, Memory>
    ensures { IfOk result (λ made. step_made plan.now inputs.now interval look.now ≡ made) }
{
    let change = &plan.change;
    let answer = build_step(
        alloc,
        look,
        interval,
        inputs,
        plan.keys.as_slice(),
        look.keys.as_slice(),
        change,
    );
    or_memory(answer)
}

// The parts of steps of several threads, each as its look shows it.
fn parts_of<'a>(
    alloc: Global,
    steps: &'a [(OutputRef, Items<Input>)],
    looks: &[Shown<'a>],
) -> Result<Vec<Part<'a>>, Memory>
    ensures { IfOk result (λ parts. parts.items ≡ parts_of steps.now looks.now) }
{
    let mut parts = Vec::new(alloc);
    for (i, step) in steps.iter().enumerate() {
        match looks.get(i) {
            Some(shown) => parts.push(Part {
                look: shown.look,
                inputs: step.1.as_slice(),
            })?,
            None => return Ok(parts),
        }
    }
    Ok(parts)
}

// What is offered to fund steps of several threads: the key outputs of the first look.
fn offered_by<'a>(looks: &[Shown<'a>]) -> &'a [Unspent]
    ensures { result.now ≡ offered_by looks.now }
{
    match looks.first() {
        Some(shown) => shown.look.keys.as_slice(),
        None => &[],
    }
}

fn steps_of(
    alloc: Global,
    plan: &Plan<OutputRef, Bytes>,
    steps: &[(OutputRef, Items<Input>)],
    interval: Interval,
    looks: &[Shown<'_>],
) -> Result<Result<Tx, BuildFault>, Memory>
    ensures { IfOk result (λ made. steps_made plan.now steps.now interval looks.now ≡ made) }
{
    let parts = parts_of(alloc, steps, looks)?;
    let offered = offered_by(looks);
    or_memory(build_steps(
        alloc,
        &parts,
        interval,
        plan.keys.as_slice(),
        offered,
        &plan.change,
    ))
}

fn claim_of(
    alloc: Global,
    plan: &Plan<OutputRef, Bytes>,
    interval: Interval,
    look: &Look,
) -> Result<Result<Tx, BuildFault>, Memory>
    ensures { IfOk result (λ made. claim_made plan.now interval look.now ≡ made) }
{
    let payouts = look.payouts.as_slice();
    let to = &plan.change;
    or_memory(build_claim(
        alloc,
        payouts,
        interval,
        plan.keys.as_slice(),
        look.keys.as_slice(),
        to,
        to,
    ))
}

/// What the builder answers to an intent by what its looks show, unless it was refused memory; nothing where it asks for no
/// look.
pub(crate) fn built(
    alloc: Global,
    plan: &Plan<OutputRef, Bytes>,
    intent: &Intent<OutputRef, Bytes>,
    looks: &[Shown<'_>],
) -> Result<Option<Result<Tx, BuildFault>>, Memory>
    ensures { IfOk result (λ made. made_of plan.now intent.now looks.now ≡ made) }
{
    match intent {
        Intent::Step {
            inputs,
            interval,
            ..
        } => match looks.first() {
            Some(shown) => {
                let made = step_of(alloc, plan, inputs.as_slice(), *interval, shown.look)?;
                Ok(Some(made))
            }
            None => Ok(None),
        },
        Intent::Steps {
            steps,
            interval,
            ..
        } => {
            let made = steps_of(alloc, plan, steps.as_slice(), *interval, looks)?;
            Ok(Some(made))
        }
        Intent::Claim { interval, .. } => match looks.first() {
            Some(shown) => {
                let made = claim_of(alloc, plan, *interval, shown.look)?;
                Ok(Some(made))
            }
            None => Ok(None),
        },
        Intent::Round { .. } => Ok(None),
        Intent::Advance(_) => Ok(None),
    }
}

// ---- how it is checked

// What looks show, as parts that are given no inputs.
fn parts_shown<'a>(alloc: Global, looks: &[Shown<'a>]) -> Result<Vec<Part<'a>>, Memory> {
    let mut parts = Vec::new(alloc);
    for shown in looks {
        parts.push(Part {
            look: shown.look,
            inputs: &[],
        })?;
    }
    Ok(parts)
}

/// The check of a transaction by what looks show.
pub(crate) fn checked(
    alloc: Global,
    looks: &[Shown<'_>],
    tx: Tx,
) -> Result<Checked<Published>, Memory>
    ensures { IfOk result (λ checked. checked.tx ≡ tx) }
{
    let parts = parts_shown(alloc, looks)?;
    let found = resolve_parts(alloc, &parts, &tx)?;
    check_owned(alloc, tx, found)
}
