//! With which outputs a history may begin.
ghost use Rattle.std.specs.Prelude.{◌↔◌, All, IfOk, IfErr, IsTrue};
ghost use Rattle.std.specs.Bool.{MatchBool};
ghost use Rattle.chain_index.specs.LedgerLaws.Sound.{AreKeys};
ghost use Rattle.ledger_kept.specs.GenesisSupport.{IsNatural};
ghost use Rattle.chain_index.specs.LedgerSpec.Genesis.{SumsFit, HasLargeSum, RefusesGenesis};

use chain_index::{Bundle, BundleFault, GenesisFault, Output};
use contract::Memory;
use std::alloc::{AllocError, Global};

fn are_keys(outputs: &[Output]) -> bool
    ensures { IsTrue result ↔ AreKeys outputs.now }
{
    outputs.iter().all(|o| o.lock.is_key())
}

fn is_natural(output: &Output)
    ensures { IsNatural output.now }
{
    // touch: no amount is below 0
    let _ = output.amount.entries();
}

// No amount is below 0, so what some outputs hold is never more than what all hold.
fn are_natural(outputs: &[Output])
    ensures { All IsNatural outputs.now }
{
    // touch: of each
    for o in outputs {
        is_natural(o);
    }
}

// Whether the sum of each token over these outputs is at most 2^127 - 1.
#[tactic(auto, using(crate::proofs::GenesisLemmas::sums_start, crate::proofs::GenesisLemmas::amounts_start, crate::proofs::GenesisLemmas::sums_next, crate::proofs::GenesisLemmas::fitting_sum, crate::proofs::GenesisLemmas::sums_fit, crate::proofs::GenesisLemmas::sum_is_large))]
fn sums_fit(alloc: Global, outputs: &[Output]) -> Result<bool, Memory>
    ensures { IfOk result (λ fits. MatchBool fits (SumsFit outputs.now) (HasLargeSum outputs.now)) }
{
    are_natural(outputs);
    let mut held = Bundle::new(alloc);
    for o in outputs {
        match held.add(&o.amount) {
            Ok(()) => {}
            Err(BundleFault::Memory) => return Err(AllocError),
            Err(_) => return Ok(false),
        }
    }
    Ok(true)
}

/// Whether a history may begin with these outputs. Refused are outputs of which one isn't a key output (`NotKey`),
/// else outputs of which the sum of a token is above 2^127 - 1 (`TooLarge`); else only a growth that was refused
/// gives `Memory`.
pub fn check_genesis(alloc: Global, outputs: &[Output]) -> Result<(), GenesisFault>
    ensures ok { IfOk result (λ _. AreKeys outputs.now × SumsFit outputs.now) }
    ensures err { IfErr result (λ fault. RefusesGenesis outputs.now fault) }
{
    if !are_keys(outputs) {
        return Err(GenesisFault::NotKey);
    }
    if !sums_fit(alloc, outputs)? {
        return Err(GenesisFault::TooLarge);
    }
    Ok(())
}
