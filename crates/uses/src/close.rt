//! Closing a contract after its last timeout.
ghost use Rattle.std.specs.Prelude.{◌≡◌, ◌≢◌, IfOk, IfErr, OnOk, OnErr};
ghost use Rattle.uses.specs.Uses.{thread_ask, after_step, closing_asked, IsThreadClosed, NeedNotClose, OnlyLooked};

use crate::step::step_now;
use builder::BuildFault;
use chain::{Chain, OutputRef, Reply};
use contract::{Input, Text};
use std::alloc::Global;

/// Closes the thread from a start output at the present tick, as anybody can once its last timeout is reached: no
/// party brings an input, nobody signs and nothing is offered. Answers the reply to the Submit.
///
/// The reply is that the step is accepted, unless one of other bytes has its id. And where the tick has reached the
/// last timeout and the thread's minimum time, the step leaves Close without accounts, and pays parties all that the
/// thread's output held, of every token. Then the only other faults are, memory aside, that a number leaves 128 bits,
/// and that Close without accounts stands already. Where the step isn't built, nothing is submitted, and the chain has
/// at most the look more.
pub fn close_thread(
    alloc: Global,
    chain: &mut Chain,
    seat: u64,
    start: OutputRef,
    change: &Text,
) -> Result<Reply, BuildFault>
    ensures closed { IfOk result (λ reply. IsThreadClosed chain.old start change.now reply) }
    ensures after { OnOk result (chain.new ≡ after_step chain.old seat start (closing_asked chain.old change.now)) }
    ensures err { IfErr result (λ fault. fault ≢ BuildFault.Memory → NeedNotClose chain.old start change.now fault) }
    ensures looked { OnErr result (OnlyLooked chain.old chain.new seat (thread_ask start)) }
{
    // touch: brings the headline's second half
    let _ = chain.history();
    let inputs: &[Input] = &[];
    let signers: &[Text] = &[];
    let reply = step_now(alloc, chain, seat, start, inputs, signers, change)?;
    Ok(reply)
}
