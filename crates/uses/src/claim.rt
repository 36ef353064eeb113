//! A claim of payouts.
ghost use Rattle.std.specs.Prelude.{◌≡◌, ◌≢◌, Some, IfOk, IfErr, OnOk, OnErr};
ghost use Rattle.chain.specs.LedgerSpec.BuilderSpec.Claims.{hinders_claim};
ghost use Rattle.uses.specs.Uses.{claim_asked, IsClaimed, after_claim};

use crate::plain_calls::{at_tick, submit};
use builder::{BuildFault, build_claim};
use chain::{Chain, Reply, Unspent};
use contract::Text;
use std::alloc::Global;

/// Claims payouts at the present tick, by the roles' tokens in what is offered: what the payouts hold goes to the key
/// of an address, and the tokens go back there. Payouts and offers are those of a look, `payouts` and `keys`. Answers
/// the reply to the Submit, or why there is no such claim; then nothing is submitted, and the chain is as it was.
///
/// The reply is that the claim is accepted, where the payouts and what is taken of the offers are unspent with the
/// contents that were handed in, unless an accepted transaction of other bytes has the claim's id.
#[tactic(auto, using(crate::proofs::CallerLemmas::claim_hindered_by))]
pub fn claim_now(
    alloc: Global,
    chain: &mut Chain,
    seat: u64,
    payouts: &[Unspent],
    signers: &[Text],
    offered: &[Unspent],
    to: &Text,
) -> Result<Reply, BuildFault>
    ensures claimed { let r = claim_asked chain.old payouts.now signers.now offered.now to.now in
        IfOk result (λ reply. IsClaimed chain.old r reply) }
    ensures after { let r = claim_asked chain.old payouts.now signers.now offered.now to.now in
        OnOk result (chain.new ≡ after_claim chain.old seat r) }
    ensures err { let r = claim_asked chain.old payouts.now signers.now offered.now to.now in
        IfErr result (λ fault. fault ≢ BuildFault.Memory → hinders_claim r ≡ Some fault) }
    ensures unchanged { OnErr result (chain.new ≡ chain.old) }
{
    let now = at_tick(chain);
    let tx = build_claim(alloc, payouts, now, signers, offered, to, to)?;
    let reply = submit(alloc, chain, seat, tx)?;
    Ok(reply)
}
