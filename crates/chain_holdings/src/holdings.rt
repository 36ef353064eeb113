//! Who holds what.
ghost use Rattle.std.specs.Prelude.{◌≡◌, IfOk};
ghost use Rattle.chain_holdings.specs.After.{AreHoldings, AreWhatThereWas};

use crate::accepted::{accepted, tally_of};
use crate::again::made_again;
use crate::ends::ends_after;
use crate::unspent::unspent;
use chain::Chain;
use contract::{Items, Memory, TryClone};
use ledger_kept::{Kept, Output, OutputRef};
use play_holdings::{Holding, holdings_of};
use std::alloc::Global;

/// Who holds what after the history of a chain that began with these outputs at this tick: what stands unspent, summed by holder
/// and token. What a contract holds is under the place of its thread among these starts. Together, token by token, it is what
/// the ledger began with. It makes the calls of the history once more, on a chain of its own; this chain stays as it is. Answers
/// `Memory` only where a growth was refused.
pub fn holdings_after(
    alloc: Global,
    chain: &Chain,
    first: &Items<Output>,
    tick: i64,
    starts: &[OutputRef],
) -> Result<Vec<Holding>, Memory>
    requires genesis { first.now ≡ chain.now.genesis }
    requires tick { tick ≡ chain.now.first_tick }
    ensures holdings { IfOk result (λ holdings. AreHoldings chain.now starts.now holdings.items) }
    ensures together { IfOk result (λ holdings. AreWhatThereWas chain.now holdings.items) }
{
    // touch: the history is legal, and keeps sums
    let entries = chain.history();
    let copy = first.try_clone()?;
    let again = made_again(alloc, copy, tick, entries)?;
    let ends = ends_after(alloc, again, starts)?;
    let tally = tally_of(alloc, tick, entries)?;
    let kept = Kept::new(first.as_slice(), tick, entries, &tally, &[]);
    let txs = accepted(alloc, &kept)?;
    let lent = unspent(alloc, chain, first.as_slice(), &txs)?;
    holdings_of(alloc, &ends, &lent)
}
