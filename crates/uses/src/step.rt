//! A step of a thread, now.
ghost use Rattle.std.specs.Prelude.{◌≡◌, ◌≢◌, Some, IfOk, IfErr, OnOk, OnErr};
ghost use Rattle.chain.specs.LedgerSpec.BuilderSpec.Parts.{hinders_step};
ghost use Rattle.uses.specs.Uses.{thread_ask, thread_look, step_asked, IsStepped, after_step, OnlyLooked};

use crate::plain_calls::{at_tick, look_at, submit, thread_ask};
use builder::{BuildFault, build_step};
use chain::{Chain, OutputRef, Reply, Unspent};
use contract::{Input, Text};
use std::alloc::Global;

/// Steps the thread from a start output at the present tick, with inputs of the contract that need signatures alone:
/// it looks at the thread, builds the step with nothing offered, and submits that. Answers the reply to the Submit,
/// or why there is no such step; then nothing is submitted, and the chain has at most the look more.
///
/// The reply is that the step is accepted, whatever the chain has seen before, unless an accepted transaction of
/// other bytes has the step's id: the SHA-256 of its bytes.
pub fn step_now(
    alloc: Global,
    chain: &mut Chain,
    seat: u64,
    start: OutputRef,
    inputs: &[Input],
    signers: &[Text],
    change: &Text,
) -> Result<Reply, BuildFault>
    ensures stepped { let r = step_asked chain.old inputs.now signers.now change.now in
        IfOk result (λ reply. IsStepped chain.old start r reply) }
    ensures after { let r = step_asked chain.old inputs.now signers.now change.now in
        OnOk result (chain.new ≡ after_step chain.old seat start r) }
    ensures err { let r = step_asked chain.old inputs.now signers.now change.now in
        IfErr result (λ fault. fault ≢ BuildFault.Memory → hinders_step (thread_look chain.old start) r ≡ Some fault) }
    ensures looked { OnErr result (OnlyLooked chain.old chain.new seat (thread_ask start)) }
{
    let offered: &[Unspent] = &[];
    let now = at_tick(chain);
    let look = look_at(alloc, chain, seat, thread_ask(alloc, start))?;
    let tx = build_step(alloc, &look, now, inputs, signers, offered, change)?;
    let reply = submit(alloc, chain, seat, tx)?;
    Ok(reply)
}
