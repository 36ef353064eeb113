//! What each unspent output holds.
ghost use Rattle.std.specs.Prelude.{◌≡◌, ◌++◌, map, IfOk, OnOk};
ghost use Rattle.std.specs.List.{flat_map};
ghost use Rattle.play_holdings.specs.Holdings.{AllAbove, held_in, holding_of};

use crate::ends::Ends;
use crate::holder::Holder;
use crate::holding::Holding;
use crate::lent::LentOutput;
use eutxo::{Memory, Output, OutputRef, Token, TryClone};
use std::alloc::Global;

// Puts amounts at the end, all of one holder.
fn put_amounts(
    rows: &mut Vec<Holding>,
    holder: &Holder,
    amounts: &[(Token, i128)],
) -> Result<(), Memory>
    ensures { OnOk result (rows.new.items ≡ rows.old.items ++ map (holding_of holder.now) amounts.now) }
{
    for entry in amounts {
        let holder = holder.try_clone()?;
        let token = entry.0.try_clone()?;
        rows.push(Holding {
            holder,
            token,
            amount: entry.1,
        })?;
    }
    Ok(())
}

// Puts what an output holds at the end.
fn put_output(
    rows: &mut Vec<Holding>,
    ends: &Ends,
    reference: &OutputRef,
    output: &Output,
) -> Result<(), Memory>
    ensures put { OnOk result (rows.new.items ≡ rows.old.items ++ held_in ends.now (reference.now, output.now)) }
    ensures above { AllAbove (held_in ends.now (reference.now, output.now)) }
{
    let amounts = output.amount.entries();
    let holder = ends.holder_under(reference, &output.lock)?;
    put_amounts(rows, &holder, amounts)
}

/// What each of these outputs holds, in order.
pub(crate) fn one_by_one(
    alloc: Global,
    ends: &Ends,
    unspent: &[LentOutput<'_>],
) -> Result<Vec<Holding>, Memory>
    ensures rows { IfOk result (λ rows. rows.items ≡ flat_map (held_in ends.now) unspent.now) }
    ensures above { IfOk result (λ rows. AllAbove rows.items) }
{
    let mut rows = Vec::new(alloc);
    for lent in unspent {
        put_output(&mut rows, ends, &lent.reference, lent.output)?;
    }
    Ok(rows)
}
