//! A contract from its publishing to its end.
ghost use Rattle.std.specs.Prelude.{◌≡◌, IfOk, OnOk};
ghost use Rattle.chain.specs.LedgerSpec.Ledger.declared.call.Call.TheVariants as on;
ghost use Rattle.chain.specs.LedgerSpec.Ledger.declared.call.Reply.TheVariants as answer;
ghost use Rattle.uses.specs.Uses.{called, agreed, after_start, IsBegun, IsEnded};

use crate::fault::UseFault;
use crate::plain_calls::{at_tick, submit};
use crate::step::step_now;
use builder::build_start;
use chain::{Call, Chain, OutputRef, Reply, Unspent, publish};
use contract::{Bytes, Contract, Input, Memory, State, Text, TryClone};
use std::alloc::Global;

/// What two parties agree on: the contract with the currency of its roles' tokens, and the state that it starts from,
/// whose accounts have the money.
#[derive(Clone, Copy)]
pub struct Deal<'a> {
    pub contract: &'a Contract,
    pub currency: &'a Bytes,
    pub state: &'a State,
}

// Publishes the contract on the chain.
fn publish_deal(alloc: Global, chain: &mut Chain, seat: u64, deal: Deal<'_>) -> Result<(), Memory>
    ensures { let call = on.Publish deal.entry.contract.now deal.entry.currency.now in
        OnOk result (chain.new ≡ called chain.old seat call) }
{
    let currency = deal.currency.try_clone()?;
    let contract = deal.contract.try_clone()?;
    chain.call(alloc, seat, Call::Publish { contract, currency })?;
    Ok(())
}

// The id of the start that was accepted.
fn accepted_id(reply: &Reply) -> Result<[u8; 32], UseFault>
    ensures { IfOk result (λ id. reply.now ≡ answer.Accepted id) }
{
    match reply {
        Reply::Accepted(id) => Ok(*id),
        _ => Err(UseFault::NotStarted),
    }
}

/// Publishes and starts the contract with what is offered: the start output.
pub(crate) fn begin(
    alloc: Global,
    chain: &mut Chain,
    seat: u64,
    deal: Deal<'_>,
    signers: &[Text],
    offered: &[Unspent],
    change: &Text,
) -> Result<OutputRef, UseFault>
    ensures begun { let d = agreed deal.entry.contract.now deal.entry.currency.now deal.entry.state.now in
        IfOk result (λ start. IsBegun chain.old seat d signers.now offered.now change.now start) }
    ensures after { let d = agreed deal.entry.contract.now deal.entry.currency.now deal.entry.state.now in
        OnOk result (chain.new ≡ after_start chain.old seat d signers.now offered.now change.now) }
{
    publish_deal(alloc, chain, seat, deal)?;
    let currency = deal.currency.try_clone()?;
    let published = publish(alloc, deal.contract, currency)?;
    let now = at_tick(chain);
    let tx = build_start(alloc, &published, deal.state, now, signers, offered, change)?;
    let reply = submit(alloc, chain, seat, tx)?;
    let id = accepted_id(&reply)?;
    Ok(OutputRef::Made { id, index: 0 })
}

/// Takes an escrow from its publishing to its end: the contract is published, started with what is offered, and
/// stepped with the inputs that end it, which need signatures alone. Answers the reply to the Submit of that step.
///
/// The chain has four entries more: the publication, the start, which is accepted, a look at its thread, and the
/// step. The reply is that the step is accepted, whatever the chain has seen before, unless an accepted transaction
/// of other bytes has its id.
pub fn escrow(
    alloc: Global,
    chain: &mut Chain,
    seat: u64,
    deal: Deal<'_>,
    inputs: &[Input],
    signers: &[Text],
    offered: &[Unspent],
    change: &Text,
) -> Result<Reply, UseFault>
    ensures { let d = agreed deal.entry.contract.now deal.entry.currency.now deal.entry.state.now in
        IfOk result (λ reply. IsEnded chain.old chain.new seat d inputs.now signers.now offered.now change.now reply) }
{
    let start = begin(alloc, chain, seat, deal, signers, offered, change)?;
    let reply = step_now(alloc, chain, seat, start, inputs, signers, change)?;
    Ok(reply)
}
