//! The ranges of products and quotients.
ghost use Rattle.std.specs.Prelude.{◌≡◌, pos, ◌≤ℤ◌, ◌<ℤ◌, Some, None};
ghost use Rattle.std.specs.Option.{IfSome};
ghost use Rattle.linear.specs.ResultRanges.{AreCorners, IsProductRange, IsTurned, IsByGreatest, IsLeastQuotient, IsGreatestQuotient, IsQuotientRange};

use crate::bounds::{Bounds, UNBOUNDED, greatest_of_both, least_of_both};
use crate::checked::{negation, product, quotient};

// The least of four numbers.
fn least_of_four(one: i128, two: i128, three: i128, four: i128) -> i128
    ensures first { result ≤ℤ one }
    ensures second { result ≤ℤ two }
    ensures third { result ≤ℤ three }
    ensures fourth { result ≤ℤ four }
{
    let m = if two < one { two } else { one };
    let n = if four < three { four } else { three };
    if n < m { n } else { m }
}

// The greatest of four numbers.
fn greatest_of_four(one: i128, two: i128, three: i128, four: i128) -> i128
    ensures first { one ≤ℤ result }
    ensures second { two ≤ℤ result }
    ensures third { three ≤ℤ result }
    ensures fourth { four ≤ℤ result }
{
    let m = if two < one { one } else { two };
    let n = if four < three { three } else { four };
    if n < m { m } else { n }
}

// The least and the greatest product of numbers from a to b and from c to d.
fn corners(
    left_least: i128,
    left_greatest: i128,
    right_least: i128,
    right_greatest: i128,
) -> Option<(i128, i128)>
    ensures { IfSome result (AreCorners left_least left_greatest right_least right_greatest) }
{
    let ca = product(right_least, left_least)?;
    let da = product(right_greatest, left_least)?;
    let cb = product(right_least, left_greatest)?;
    let db = product(right_greatest, left_greatest)?;
    let low = least_of_four(ca, da, cb, db);
    let high = greatest_of_four(ca, da, cb, db);
    Some((low, high))
}

/// The range of the products of numbers in two ranges.
pub fn product_range(left: Bounds, right: Bounds) -> Bounds
    ensures { IsProductRange left.least left.greatest right.least right.greatest result.least result.greatest }
{
    match (left.least, left.greatest, right.least, right.greatest) {
        (Some(a), Some(b), Some(c), Some(d)) => match corners(a, b, c, d) {
            Some((low, high)) => Bounds {
                least: Some(low),
                greatest: Some(high),
            },
            None => UNBOUNDED,
        },
        _ => UNBOUNDED,
    }
}

// A bound of numbers with their signs turned.
fn turned(bound: Option<i128>) -> Option<i128>
    ensures { IsTurned bound result }
{
    let number = bound?;
    negation(number)
}

// The quotient by the greatest divisor, and 0 where there is none.
fn by_greatest(number: i128, greatest: Option<i128>) -> Option<i128>
    ensures { IfSome result (IsByGreatest number greatest) }
{
    match greatest {
        Some(divisor) => quotient(number, divisor),
        None => Some(0),
    }
}

// A lower bound of the quotients of numbers from a least one on, by divisors above 0.
fn least_quotient(number: Option<i128>, least: i128, greatest: Option<i128>) -> Option<i128>
    requires { pos 0 <ℤ least }
    ensures { IsLeastQuotient number least greatest result }
{
    let from = number?;
    if from < 0 {
        quotient(from, least)
    } else {
        by_greatest(from, greatest)
    }
}

// An upper bound of the quotients of numbers up to a greatest one, by divisors above 0.
fn greatest_quotient(number: Option<i128>, least: i128, greatest: Option<i128>) -> Option<i128>
    requires { pos 0 <ℤ least }
    ensures { IsGreatestQuotient number least greatest result }
{
    let up_to = number?;
    if up_to < 0 {
        by_greatest(up_to, greatest)
    } else {
        quotient(up_to, least)
    }
}

// The range of quotients by numbers above 0.
fn above_range(dividend: Bounds, least: i128, greatest: Option<i128>) -> Bounds
    requires { pos 0 <ℤ least }
    ensures { IsQuotientRange dividend.least dividend.greatest (Some least) greatest result.least result.greatest }
{
    Bounds {
        least: least_quotient(dividend.least, least, greatest),
        greatest: greatest_quotient(dividend.greatest, least, greatest),
    }
}

// The range of quotients by numbers from 0 on: each lies between 0 and what is divided.
fn natural_range(dividend: Bounds) -> Bounds
    ensures { IsQuotientRange dividend.least dividend.greatest (Some (pos 0)) None result.least result.greatest }
{
    Bounds {
        least: least_of_both(dividend.least, Some(0)),
        greatest: greatest_of_both(dividend.greatest, Some(0)),
    }
}

// The range of quotients by any numbers: none is further from 0 than what is divided.
fn any_range(dividend: Bounds) -> Bounds
    ensures { IsQuotientRange dividend.least dividend.greatest None None result.least result.greatest }
{
    Bounds {
        least: least_of_both(dividend.least, turned(dividend.greatest)),
        greatest: greatest_of_both(dividend.greatest, turned(dividend.least)),
    }
}

// The range of quotients by numbers below 0: those by their opposites, with the signs turned.
fn below_range(dividend: Bounds, least: Option<i128>, greatest: i128) -> Bounds
    requires { greatest <ℤ pos 0 }
    ensures { IsQuotientRange dividend.least dividend.greatest least (Some greatest) result.least result.greatest }
{
    match negation(greatest) {
        Some(opposite) => {
            let range = above_range(dividend, opposite, turned(least));
            Bounds {
                least: turned(range.greatest),
                greatest: turned(range.least),
            }
        }
        None => any_range(dividend),
    }
}

// The range of quotients by numbers that may lie below 0.
fn low_range(dividend: Bounds, divisor: Bounds) -> Bounds
    ensures { IsQuotientRange dividend.least dividend.greatest divisor.least divisor.greatest result.least result.greatest }
{
    match divisor.greatest {
        Some(greatest) => {
            if greatest < 0 {
                below_range(dividend, divisor.least, greatest)
            } else {
                any_range(dividend)
            }
        }
        None => any_range(dividend),
    }
}

// The range of quotients by numbers from a least one on.
fn range_from(dividend: Bounds, divisor: Bounds, least: i128) -> Bounds
    ensures { IsQuotientRange dividend.least dividend.greatest (Some least) divisor.greatest result.least result.greatest }
{
    if least > 0 {
        return above_range(dividend, least, divisor.greatest);
    }
    if least == 0 {
        return natural_range(dividend);
    }
    low_range(
        dividend,
        Bounds {
            least: Some(least),
            greatest: divisor.greatest,
        },
    )
}

/// The range of the quotients of numbers in two ranges, truncated toward 0, and 0 where the divisor is 0.
pub fn quotient_range(dividend: Bounds, divisor: Bounds) -> Bounds
    ensures { IsQuotientRange dividend.least dividend.greatest divisor.least divisor.greatest result.least result.greatest }
{
    match divisor.least {
        Some(least) => range_from(dividend, divisor, least),
        None => low_range(dividend, divisor),
    }
}
