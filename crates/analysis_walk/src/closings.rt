//! What parties are paid wherever a contract is closed.
ghost use Rattle.std.specs.Prelude.{◌≡◌, ◌-◌, ◌<◌, ◌^◌, suc, IfOk, OnOk};
ghost use Rattle.std.proofs.Props.{props};
ghost use Rattle.analysis_walk.specs.Rows.{AreMet, Adds, AreBounded, NameAll, range_of};

use crate::row::{Row, named, paid_span};
use crate::span::Span;
use analysis_spec::PaidRange;
use contract::{Account, Entries, Items, Memory, TryClone};
use std::alloc::{AllocError, Global};

/// All closes so far, and what parties are paid at them.
#[derive(Drop)]
pub(crate) struct Closings {
    pub(crate) rows: Entries<Account, Row>,
    pub(crate) count: u64,
    ghost met: { AreMet rows count } by { Prim.hlevel props },
}

impl Closings {
    /// No close yet.
    pub(crate) fn new(alloc: Global) -> Closings
        ensures { result.count ≡ 0 }
    {
        Closings {
            rows: Entries::new(alloc),
            count: 0,
        }
    }

    /// One more close, at which parties are paid so.
    pub(crate) fn add(&mut self, spans: &[(Account, Span)]) -> Result<(), Memory>
        ensures count { OnOk result (self.new.count ≡ suc self.old.count) }
        ensures rows { OnOk result (Adds self.old.rows self.old.count self.new.rows spans.now) }
    {
        let before = self.count;
        let Some(count) = before.checked_add(1) else {
            return Err(AllocError);
        };
        self.count = count;
        add_rows(&mut self.rows, before, spans)?;
        Ok(())
    }

    /// What each party is paid of each token at a close: nothing where it isn't named.
    pub(crate) fn ranges(&self, alloc: Global) -> Result<Items<PaidRange>, Memory>
        ensures bounded { IfOk result (AreBounded self.now.rows self.now.count) }
        ensures all { IfOk result (NameAll self.now.rows) }
    {
        ranges_of(alloc, &self.rows, self.count)
    }
}

// The ranges of all rows.
fn ranges_of(
    alloc: Global,
    rows: &Entries<Account, Row>,
    count: u64,
) -> Result<Items<PaidRange>, Memory>
    ensures bounded { IfOk result (AreBounded rows.now count) }
    ensures all { IfOk result (NameAll rows.now) }
{
    let mut ranges = Items::new(alloc);
    for (account, _) in rows.as_slice() {
        let span = paid_span(rows.get(account), count);
        ranges.push(range_of(account, span)?)?;
    }
    Ok(ranges)
}

fn range_of(account: &Account, span: Span) -> Result<PaidRange, Memory>
    ensures { IfOk result (λ range. range ≡ range_of account.now span) }
{
    let party = account.owner.try_clone()?;
    let token = account.token.try_clone()?;
    Ok(PaidRange {
        party,
        token,
        least: span.least,
        most: span.most,
    })
}

// The rows after one more close.
fn add_rows(
    rows: &mut Entries<Account, Row>,
    before: u64,
    spans: &[(Account, Span)],
) -> Result<(), Memory>
    requires met { AreMet rows.old before }
    requires few { before < 2 ^ 64 - 1 }
    ensures met { AreMet rows.new (suc before) }
    ensures added { OnOk result (Adds rows.old before rows.new spans.now) }
{
    for (account, span) in spans {
        let row = rows.get(account);
        rows.set(account, named(row, *span, before))?;
    }
    Ok(())
}
