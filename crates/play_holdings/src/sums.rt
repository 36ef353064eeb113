//! Holdings, summed by holder and token.
ghost use Rattle.std.specs.Prelude.{◌≡◌, ◌++◌, ◌+ℤ◌, ◌≤ℤ◌, ◌<ℤ◌, pos, true, [], IfOk, OnOk};
ghost use Rattle.std.specs.List.Sorted.{IsPermutation};
ghost use Rattle.play_holdings.specs.Holdings.{AllAbove, AreSums};
ghost use Rattle.play_holdings.specs.SumsSupport as support;
ghost use Rattle.play_holdings.specs.SumsSupport.{most, Fit, NeverFall, with_amount, behind, with_next, with_all, HasRoom};

use crate::holding::{Holding, compare_holdings};
use eutxo::{Memory, TryClone};
use std::alloc::Global;

fn sort_holdings(rows: &mut Vec<Holding>)
    ensures sorted { NeverFall rows.new.items }
    ensures same { IsPermutation rows.old.items rows.new.items }
{
    rows.sort_unstable_by(|a, b| compare_holdings(a, b));
}

// Whether two are of one holder and token.
fn is_same(a: &Holding, b: &Holding) -> bool
    ensures { result ≡ support.is_same a.now b.now }
{
    compare_holdings(a, b).is_eq()
}

fn sum(a: i128, b: i128) -> i128
    requires above { pos 0 <ℤ a }
    requires b_above { pos 0 <ℤ b }
    requires room { (a +ℤ b) ≤ℤ most }
    ensures { result ≡ a +ℤ b }
{
    a + b
}

// The same holder and token, with another amount.
fn with_amount(holding: Holding, amount: i128) -> Holding
    ensures { result ≡ with_amount holding amount }
{
    let Holding {
        holder,
        token,
        amount: _,
    } = holding;
    Holding {
        holder,
        token,
        amount,
    }
}

// Puts two behind these: as one, where they are of one holder and token.
fn put_behind(sums: &mut Vec<Holding>, last: Holding, next: Holding) -> Result<(), Memory>
    requires above { pos 0 <ℤ last.amount }
    requires next_above { pos 0 <ℤ next.amount }
    requires room { support.is_same last next ≡ true → (last.amount +ℤ next.amount) ≤ℤ most }
    ensures { OnOk result (sums.new.items ≡ sums.old.items ++ behind last next) }
{
    if is_same(&last, &next) {
        let amount = sum(last.amount, next.amount);
        sums.push(with_amount(last, amount))?;
    } else {
        sums.push(last)?;
        sums.push(next)?;
    }
    Ok(())
}

// Puts one more behind these, into the last of them where that is of its holder and token.
fn put_next(sums: &mut Vec<Holding>, next: Holding) -> Result<(), Memory>
    requires above { AllAbove sums.old.items }
    requires next_above { pos 0 <ℤ next.amount }
    requires room { HasRoom next sums.old.items }
    ensures { OnOk result (sums.new.items ≡ with_next sums.old.items next) }
{
    match sums.pop() {
        Some(last) => put_behind(sums, last, next),
        None => {
            sums.push(next)?;
            Ok(())
        }
    }
}

// Puts each of these behind those before it.
fn sum_up(alloc: Global, rows: &[Holding]) -> Result<Vec<Holding>, Memory>
    requires above { AllAbove rows.now }
    requires fit { Fit rows.now }
    ensures { IfOk result (λ sums. sums.items ≡ with_all [] rows.now) }
{
    let mut sums = Vec::new(alloc);
    for row in rows {
        let next = row.try_clone()?;
        put_next(&mut sums, next)?;
    }
    Ok(sums)
}

/// The sums of these by holder and token, in n log n steps.
pub(crate) fn sums_of(alloc: Global, mut rows: Vec<Holding>) -> Result<Vec<Holding>, Memory>
    requires above { AllAbove rows.items }
    requires fit { Fit rows.items }
    ensures { IfOk result (λ sums. AreSums rows.items sums.items) }
{
    sort_holdings(&mut rows);
    sum_up(alloc, &rows)
}
