//! A second chain with the same history.
ghost use Rattle.std.specs.Prelude.{◌≡◌, [], IfOk};
ghost use Rattle.ledger_kept.specs.LedgerLaws.Sound.{AreKeys};
ghost use Rattle.ledger_kept.specs.LedgerSpec.Genesis.{SumsFit};
ghost use Rattle.ledger_kept.specs.LedgerSpec.Legal.{IsLegal};
ghost use Rattle.chain_holdings.specs.After.{course};

use chain::Chain;
use contract::{Items, Memory, TryClone};
use ledger_kept::{Entry, GenesisFault, Output};
use std::alloc::{AllocError, Global};

// A chain without entries.
fn begun(alloc: Global, first: Items<Output>, tick: i64) -> Result<Chain, Memory>
    requires keys { AreKeys first }
    requires sums { SumsFit first }
    ensures { IfOk result (λ chain. chain ≡ course first tick []) }
{
    match Chain::genesis(alloc, first, tick) {
        Ok(chain) => Ok(chain),
        Err(GenesisFault::Memory) => Err(AllocError),
        Err(GenesisFault::NotKey) => unreachable!(),
        Err(GenesisFault::TooLarge) => unreachable!(),
    }
}

/// A chain with this history: it makes all calls again. The replies are the same, so it costs what the first chain's did.
pub(crate) fn made_again(
    alloc: Global,
    first: Items<Output>,
    tick: i64,
    entries: &[Entry],
) -> Result<Chain, Memory>
    requires keys { AreKeys first }
    requires sums { SumsFit first }
    requires legal { IsLegal (course first tick entries.now) }
    ensures { IfOk result (λ chain. chain ≡ course first tick entries.now) }
{
    let mut chain = begun(alloc, first, tick)?;
    for entry in entries {
        let again = entry.call.try_clone()?;
        chain.call(alloc, entry.seat, again)?;
    }
    Ok(chain)
}
