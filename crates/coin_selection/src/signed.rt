//! Signatures on what is offered.
ghost use Rattle.std.specs.Prelude.{◌≡◌};
ghost use Rattle.std.specs.List.{list_all};
ghost use Rattle.builder_spec.specs.Causes.{is_signed};

use builder_spec::{Lock, Unspent, has_signed};
use contract::Text;

fn is_signed(signers: &[Text], lock: &Lock) -> bool
    ensures { result ≡ is_signed signers.now lock.now }
{
    match lock {
        Lock::Key(address) => has_signed(signers, address),
        Lock::Payout { .. } => false,
        Lock::Contract { .. } => false,
    }
}

/// Whether each output is under the key of a signer.
pub(crate) fn are_signed(signers: &[Text], offered: &[Unspent]) -> bool
    ensures { result ≡ list_all (λ u. is_signed signers.now u.output.lock) offered.now }
{
    offered.iter().all(|u| is_signed(signers, &u.output.lock))
}
