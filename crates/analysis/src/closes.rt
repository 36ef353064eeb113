//! What parties are paid where a contract is closed.
ghost use Rattle.std.specs.Prelude.{◌≡◌, is_some, IfOk, OnOk};
ghost use Rattle.std.specs.FinMap.Entries.{find};
ghost use Rattle.contract.specs.Names.Orders.{account_cmp};
ghost use Rattle.analysis_values.specs.Known.{IsDescribed};
ghost use Rattle.analysis_walk.specs.Knowledge.{ClosesBy};
ghost use Rattle.analysis.specs.Closes.{ArePaid, NamesAll, Puts};

use analysis_steps::close;
use analysis_values::Known;
use analysis_walk::Span;
use contract::{Account, Entries, Memory};
use std::alloc::Global;

/// What parties are paid in all, where the contract is closed here. Who isn't named is paid nothing.
pub(crate) fn spans(alloc: Global, known: &Known) -> Result<Entries<Account, Span>, Memory>
    ensures { IfOk result (ClosesBy IsDescribed known.now) }
{
    let names = known.named()?;
    let all = spans_of(alloc, known, names.as_slice())?;
    Ok(all)
}

// What the owner of each of these accounts is paid of its token.
fn spans_of(
    alloc: Global,
    known: &Known,
    names: &[Account],
) -> Result<Entries<Account, Span>, Memory>
    ensures paid { IfOk result (ArePaid known.now) }
    ensures all { IfOk result (NamesAll names.now) }
{
    let mut all = Entries::new(alloc);
    for account in names {
        put_span(&mut all, known, account)?;
    }
    Ok(all)
}

// .. of one account, unless that is there.
fn put_span(
    all: &mut Entries<Account, Span>,
    known: &Known,
    account: &Account,
) -> Result<(), Memory>
    ensures { OnOk result (Puts known.now account.now all.old all.new) }
{
    let there = is_there(all, account);
    if there {
        return Ok(());
    }
    let span = close(known, account)?;
    all.set(account, span)?;
    Ok(())
}

fn is_there(all: &Entries<Account, Span>, account: &Account) -> bool
    ensures { result ≡ is_some (find account_cmp account.now all.now) }
{
    all.get(account).is_some()
}
