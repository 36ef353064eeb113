//! What parties are paid in the end.
ghost use Rattle.std.specs.Prelude.{[], ◌∷◌, IfOk};
ghost use Rattle.linear.specs.Linear.{number_at};
ghost use Rattle.linear.specs.Bounded.{IsFromAll};
ghost use Rattle.analysis_walk.specs.Conclusions.{ClosesIn};
ghost use Rattle.analysis_walk.specs.Rows.{range_of};
ghost use Rattle.analysis_values.specs.Known.{IsDescribed};
ghost use Rattle.analysis_steps.specs.Amounts.{SumIsFrom, SumIsUpTo};

use crate::amounts::sum_of_bounds;
use analysis_values::Known;
use analysis_walk::Span;
use contract::{Account, Memory};
use linear::{Bounds, Linear};

// Bounds of the sum of two expressions.
fn bounds_of_sum(known: &Known, l: &Linear, m: &Linear) -> Result<Bounds, Memory>
    ensures least { IfOk result (λ b. SumIsFrom known.now.symbols l.now m.now b.least) }
    ensures greatest { IfOk result (λ b. SumIsUpTo known.now.symbols l.now m.now b.greatest) }
{
    let sum = l.plus(m)?;
    match sum {
        Some(all) => Ok(Bounds {
            least: known.least(&all),
            greatest: known.greatest(&all),
        }),
        None => Ok(Bounds {
            least: sum_of_bounds(known.least(l), known.least(m)),
            greatest: sum_of_bounds(known.greatest(l), known.greatest(m)),
        }),
    }
}

/// What the owner of an account has been paid of its token in all, where the contract is closed here: the least and
/// the most that are shown. A Close pays out the account (Marlowe specification version 3, "Reduce contract step").
pub fn close(known: &Known, account: &Account) -> Result<Span, Memory>
    ensures { IfOk result (λ x. ClosesIn IsDescribed known.now (range_of account.now x ∷ [])) }
{
    let paid = known.paid(&account.owner, &account.token)?;
    let left = known.held(&account.owner, &account.token)?;
    let bounds = bounds_of_sum(known, &paid, &left)?;
    Ok(Span {
        least: bounds.least,
        most: bounds.greatest,
    })
}

// Whether no closer bound is wanted: it is no less than the floor, or there is no floor. Where nothing is shown, nothing closer is.
fn is_close_enough(bound: Option<i128>, floor: Option<i128>) -> bool {
    match (bound, floor) {
        (Some(bound), Some(floor)) => bound >= floor,
        _ => true,
    }
}

// A lower bound of an expression: by the ranges alone where that is no less than the floor, and else the greatest that is shown.
fn least_beside(known: &Known, l: &Linear, floor: Option<i128>) -> Option<i128>
    ensures { IsFromAll known.now.symbols.ranges known.now.symbols.facts (λ r. number_at r l.now) result }
{
    let some = known.some_least(l);
    if is_close_enough(some, floor) {
        return some;
    }
    known.least(l)
}

// .. of the sum of two.
fn least_of_sum(
    known: &Known,
    l: &Linear,
    m: &Linear,
    floor: Option<i128>,
) -> Result<Option<i128>, Memory>
    ensures { IfOk result (SumIsFrom known.now.symbols l.now m.now) }
{
    let sum = l.plus(m)?;
    match sum {
        Some(all) => Ok(least_beside(known, &all, floor)),
        None => Ok(sum_of_bounds(known.least(l), known.least(m))),
    }
}

/// What the owner of an account has been paid of its token in all, as `close`, where only a least below a floor is wanted, or none
/// without a floor: the most isn't looked for, and where the ranges alone show that the sum is no less, nor is the closest least.
pub fn close_beside(known: &Known, account: &Account, floor: Option<i128>) -> Result<Span, Memory>
    ensures { IfOk result (λ x. ClosesIn IsDescribed known.now (range_of account.now x ∷ [])) }
{
    let paid = known.paid(&account.owner, &account.token)?;
    let left = known.held(&account.owner, &account.token)?;
    let least = least_of_sum(known, &paid, &left, floor)?;
    Ok(Span { least, most: None })
}
