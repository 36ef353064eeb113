//! The ledger's beginning.
ghost use Rattle.std.specs.Prelude.{◌≡◌, [], map, IfOk};
ghost use Rattle.play_setup.specs.SetUp.{course, key_output};

use crate::fault::SetupFault;
use crate::refusals::genesis_refused;
use contract::{Items, Memory, TryClone};
use parties::{Chain, Funds, Lock, Output};
use std::alloc::Global;

/// A chain that begins with what the scenario's addresses have, at this tick: an output under the key of each.
pub fn first_chain(alloc: Global, genesis: &[Funds], tick: i64) -> Result<Chain, SetupFault>
    ensures { IfOk result (λ chain. chain ≡ course (map key_output genesis.now) tick []) }
{
    let outputs = key_outputs(alloc, genesis)?;
    match Chain::genesis(alloc, outputs, tick) {
        Ok(chain) => Ok(chain),
        Err(fault) => Err(genesis_refused(alloc, fault)),
    }
}

/// What the scenario's addresses have at the beginning: an output under the key of each, in order.
pub fn key_outputs(alloc: Global, genesis: &[Funds]) -> Result<Items<Output>, Memory>
    ensures { IfOk result (λ outputs. outputs ≡ map key_output genesis.now) }
{
    let mut outputs = Items::new(alloc);
    for funds in genesis {
        outputs.push(Output {
            lock: Lock::Key(funds.address.try_clone()?),
            amount: funds.amount.try_clone()?,
        })?;
    }
    Ok(outputs)
}
