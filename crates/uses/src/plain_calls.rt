//! The calls of a chain, each with the reply that its kind has.
ghost use Rattle.std.specs.Prelude.{◌≡◌, IfOk, OnOk, OnErr};
ghost use Rattle.chain.specs.LedgerSpec.Ledger.declared.call.Call.TheVariants as on;
ghost use Rattle.chain.specs.LedgerSpec.Replay.{world};
ghost use Rattle.chain.specs.LedgerSpec.Views.{look};
ghost use Rattle.chain.specs.LedgerSpec.Calls.{reply_to};
ghost use Rattle.chain.specs.LedgerSpec.Headline.{BuildsAreAccepted};
ghost use Rattle.uses.specs.Uses.{thread_ask, at_tick, called, OnlyLooked};

use chain::{Ask, Call, Chain, Look, OutputRef, Reply, Tx};
use contract::{Interval, Items, Memory, TryClone};
use std::alloc::Global;

// The interval of a tick alone.
fn only(tick: i64) -> Interval
    ensures { result ≡ record { from = tick; to = tick } }
{
    Interval {
        from: tick,
        to: tick,
    }
}

/// The interval of the present tick alone.
pub(crate) fn at_tick(chain: &Chain) -> Interval
    ensures { result ≡ at_tick chain.now }
{
    only(chain.tick())
}

/// What asks for one thread, by its start output.
pub(crate) fn thread_ask(alloc: Global, start: OutputRef) -> Ask
    ensures { result ≡ thread_ask start }
{
    Ask {
        thread: Some(start),
        keys: Items::new(alloc),
        payouts: Items::new(alloc),
    }
}

/// Looks. Each call of a chain brings both halves of the headline along; here the second is handed on.
pub(crate) fn look_at(alloc: Global, chain: &mut Chain, seat: u64, ask: Ask) -> Result<Look, Memory>
    ensures look { IfOk result (λ shown. shown ≡ look (world chain.old) ask) }
    ensures after { OnOk result (chain.new ≡ called chain.old seat (on.Look ask)) }
    ensures err { OnErr result (OnlyLooked chain.old chain.new seat ask) }
    ensures second { BuildsAreAccepted chain.old }
{
    let reply = chain.call(alloc, seat, Call::Look(ask))?;
    match &reply {
        Reply::Look(look) => look.try_clone(),
        _ => unreachable!(),
    }
}

/// Submits a transaction: the reply is that of the table of calls.
pub(crate) fn submit(alloc: Global, chain: &mut Chain, seat: u64, tx: Tx) -> Result<Reply, Memory>
    ensures reply { IfOk result (λ reply. reply ≡ reply_to (world chain.old) (on.Submit tx)) }
    ensures after { OnOk result (chain.new ≡ called chain.old seat (on.Submit tx)) }
    ensures err { OnErr result (chain.new ≡ chain.old) }
    ensures second { BuildsAreAccepted chain.old }
{
    chain.call(alloc, seat, Call::Submit(tx))
}
