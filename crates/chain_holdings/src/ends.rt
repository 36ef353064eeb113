//! Where threads stand.
ghost use Rattle.std.specs.Prelude.{◌≡◌, map, IfOk, OnOk};
ghost use Rattle.ledger_kept.specs.LedgerSpec.Replay.{world};
ghost use Rattle.chain_holdings.specs.After as after;
ghost use Rattle.chain_holdings.specs.After.{shown_at};
ghost use Rattle.chain_holdings.specs.StillSupport.{IsStill};

use chain::Chain;
use contract::{Items, Memory};
use ledger_kept::{Ask, Call, Look, OutputRef, Reply};
use std::alloc::Global;

// The output of the thread that a look shows.
fn output_shown(look: &Look) -> Option<OutputRef>
    ensures { result ≡ after.output_shown look.now.thread }
{
    match &look.thread {
        Some(thread) => Some(thread.reference),
        None => None,
    }
}

// Where a look shows the thread that starts at an output.
fn look_at(alloc: Global, chain: &mut Chain, start: &OutputRef) -> Result<Option<OutputRef>, Memory>
    ensures end { IfOk result (λ end. end ≡ shown_at (world chain.old) start.now) }
    ensures still { OnOk result (IsStill chain.old chain.new) }
{
    let ask = Ask {
        thread: Some(*start),
        keys: Items::new(alloc),
        payouts: Items::new(alloc),
    };
    let reply = chain.call(alloc, 0, Call::Look(ask))?;
    match &reply {
        Reply::Look(look) => Ok(output_shown(look)),
        _ => unreachable!(),
    }
}

/// Where looks show the threads that start at these outputs, in order.
pub(crate) fn ends_after(
    alloc: Global,
    mut chain: Chain,
    starts: &[OutputRef],
) -> Result<Vec<Option<OutputRef>>, Memory>
    ensures { IfOk result (λ ends. ends.items ≡ map (shown_at (world chain)) starts.now) }
{
    let mut ends = Vec::new(alloc);
    for start in starts {
        let end = look_at(alloc, &mut chain, start)?;
        ends.push(end)?;
    }
    Ok(ends)
}
