//! Bounds of expressions, by the ranges of symbols and by facts.
ghost use Rattle.std.specs.Prelude.{◌≡◌, List, ℤ, pos, ◌+ℤ◌, ◌*ℤ◌, ◌≤ℤ◌, ◌<ℤ◌, IfOk, true};
ghost use Rattle.std.specs.Option.{IfSome};
ghost use Rattle.linear.specs.Linear.{Linear as Expression, Valuation, sum_at, number_at, IsFrom, IsUpTo, AreInRange, greater_of, lesser_of, IsFromEither, IsUpToEither};
ghost use Rattle.linear.specs.Combined.{combined_at};
ghost use Rattle.linear.specs.Bounded.{numbered, IsLeast, IsLeastBy, IsShown, IsRoundedUp, IsFromBy, IsFromAll, IsUpToAll, IsRefuted};

use crate::chains::least_by_chain;
use crate::checked::{negation, product, quotient, sum};
use crate::linear::{Linear, both_times};
use crate::ranges::Ranges;
use crate::terms::{MOST_SYMBOLS, Term, next_symbol, step};

/// The least and the greatest number of a symbol, where they are known.
#[derive(Clone, Copy, Drop)]
pub struct Bounds {
    pub least: Option<i128>,
    pub greatest: Option<i128>,
}

/// The range of a number of which nothing is known.
pub(crate) const UNBOUNDED: Bounds = Bounds {
    least: None,
    greatest: None,
};

/// The most facts that a query looks at, the newest: 32, and fewer where they have more than three symbols. That an expression
/// isn't shown to be natural is always a true answer, and so the time of a query is bounded.
pub const MOST_FACTS: usize = 32;

/// The most facts of which a query takes what they show, the newest: 6, and fewer where they have more than three symbols. Those
/// that show nothing of what is asked don't count.
pub const MOST_TAKEN: usize = 6;

/// So many facts, and one more: it counts once, and once more for each four of its symbols, as each of them takes time.
pub fn counted_with(count: usize, fact: &Linear) -> usize {
    count
        .saturating_add(fact.terms().len() / 4)
        .saturating_add(1)
}

// The least number of a symbol.
pub(crate) fn least_of(bounds: &Ranges, symbol: usize) -> Option<i128>
    ensures { (r : Valuation) → AreInRange r (numbered 0 bounds.now) → IsFrom result (r symbol) }
{
    bounds.at(symbol).least
}

// The greatest number of a symbol.
pub(crate) fn greatest_of(bounds: &Ranges, symbol: usize) -> Option<i128>
    ensures { (r : Valuation) → AreInRange r (numbered 0 bounds.now) → IsUpTo result (r symbol) }
{
    bounds.at(symbol).greatest
}

// The least of a symbol times its coefficient.
pub(crate) fn least_term(bounds: &Ranges, symbol: usize, coefficient: i128) -> Option<i128>
    ensures { IfSome result (IsLeast (numbered 0 bounds.now) (λ r. coefficient *ℤ r symbol)) }
{
    if coefficient == 0 {
        return Some(0);
    }
    if coefficient > 0 {
        let bound = least_of(bounds, symbol)?;
        product(coefficient, bound)
    } else {
        let bound = greatest_of(bounds, symbol)?;
        product(coefficient, bound)
    }
}

// A lower bound of multiples of two lists of terms, added.
pub(crate) fn least_terms(
    bounds: &Ranges,
    factor: i128,
    left: &[Term],
    other_factor: i128,
    right: &[Term],
) -> Option<i128>
    ensures { IfSome result (IsLeast (numbered 0 bounds.now) (λ r. (factor *ℤ sum_at r left.now) +ℤ (other_factor *ℤ sum_at r right.now))) }
{
    let mut total = 0;
    let mut i = 0;
    let mut j = 0;
    for _ in 0..2 * MOST_SYMBOLS + 1 {
        match next_symbol(left, i, right, j) {
            None => return Some(total),
            Some(symbol) => {
                let (coefficient, k, l) = step(factor, left, i, other_factor, right, j, symbol)?;
                let bound = least_term(bounds, symbol, coefficient)?;
                total = sum(total, bound)?;
                i = k;
                j = l;
            }
        }
    }
    None
}

// A lower bound of multiples of two expressions, added.
pub(crate) fn least_combined(
    bounds: &Ranges,
    factor: i128,
    left: &Linear,
    other_factor: i128,
    right: &Linear,
) -> Option<i128>
    ensures { IfSome result (IsLeast (numbered 0 bounds.now) (combined_at factor left.now other_factor right.now)) }
{
    let base = both_times(factor, left.constant(), other_factor, right.constant())?;
    let bound = least_terms(bounds, factor, left.terms(), other_factor, right.terms())?;
    sum(base, bound)
}

// A quotient by a number above 0, rounded up.
pub(crate) fn rounded_up(number: i128, divisor: i128) -> Option<i128>
    requires { pos 0 <ℤ divisor }
    ensures { IfSome result (IsRoundedUp number divisor) }
{
    if number > 0 {
        let down = quotient(number - 1, divisor)?;
        sum(down, 1)
    } else {
        quotient(number, divisor)
    }
}

// A number where it isn't above 0, and else with its sign turned.
pub(crate) fn not_above_zero(number: i128) -> Option<i128>
    ensures { IfSome result (λ n. n ≤ℤ pos 0) }
{
    if number > 0 {
        negation(number)
    } else {
        Some(number)
    }
}

// A number where it is above 0, and else with its sign turned; none of 0.
pub(crate) fn above_zero(number: i128) -> Option<i128>
    ensures { IfSome result (λ n. pos 0 <ℤ n) }
{
    if number > 0 {
        return Some(number);
    }
    let n = negation(number)?;
    if n > 0 { Some(n) } else { None }
}

/// The coefficient of a symbol in terms, 0 where it isn't there.
pub(crate) fn coefficient_of(terms: &[Term], symbol: usize) -> i128 {
    for term in terms {
        if term.0 == symbol {
            return term.1;
        }
    }
    0
}

pub(crate) fn have_one_sign(left: i128, right: i128) -> bool {
    (left > 0 && right > 0) || (left < 0 && right < 0)
}

// A lower bound of a multiple of an expression: that of the multiple, scaled, less a multiple of the fact, divided by the
// scale.
pub(crate) fn least_without(
    bounds: &Ranges,
    factor: i128,
    expression: &Linear,
    scale: i128,
    fact_factor: i128,
    fact: &Linear,
) -> Option<i128>
    requires positive { pos 0 <ℤ scale }
    requires taken { fact_factor ≤ℤ pos 0 }
    ensures { IfSome result (IsLeastBy (numbered 0 bounds.now) fact.now (λ r. factor *ℤ number_at r expression.now)) }
{
    let s = product(scale, factor)?;
    let n = least_combined(bounds, s, expression, fact_factor, fact)?;
    rounded_up(n, scale)
}

// A lower bound of a multiple of an expression, where a symbol is taken out by a fact; with its coefficients in both.
fn least_by_term(
    bounds: &Ranges,
    factor: i128,
    expression: &Linear,
    in_expression: i128,
    fact: &Linear,
    in_fact: i128,
) -> Option<i128>
    ensures { IfSome result (IsLeastBy (numbered 0 bounds.now) fact.now (λ r. factor *ℤ number_at r expression.now)) }
{
    if in_fact == 0 {
        return None;
    }
    let j = product(factor, in_expression)?;
    if !have_one_sign(in_fact, j) {
        return None;
    }
    let m = above_zero(in_fact)?;
    let j = not_above_zero(j)?;
    least_without(bounds, factor, expression, m, j, fact)
}

// The greater of two lower bounds.
pub(crate) fn greater(left: Option<i128>, right: Option<i128>) -> Option<i128>
    ensures { result ≡ greater_of left right }
{
    match (left, right) {
        (Some(m), Some(n)) => Some(if n < m { m } else { n }),
        (None, right) => right,
        (left, None) => left,
    }
}

// The lesser of two upper bounds.
pub(crate) fn lesser(left: Option<i128>, right: Option<i128>) -> Option<i128>
    ensures { result ≡ lesser_of left right }
{
    match (left, right) {
        (Some(m), Some(n)) => Some(if n < m { n } else { m }),
        (None, right) => right,
        (left, None) => left,
    }
}

/// The lesser of two lower bounds, where there are both.
pub fn least_of_both(left: Option<i128>, right: Option<i128>) -> Option<i128>
    ensures { IsFromEither left right result }
{
    match (left, right) {
        (Some(m), Some(n)) => Some(if n < m { n } else { m }),
        _ => None,
    }
}

/// The greater of two upper bounds, where there are both.
pub fn greatest_of_both(left: Option<i128>, right: Option<i128>) -> Option<i128>
    ensures { IsUpToEither left right result }
{
    match (left, right) {
        (Some(m), Some(n)) => Some(if n < m { m } else { n }),
        _ => None,
    }
}

// The most symbols of an expression, the newest, for each of which it is looked what a fact shows that takes it out: 8.
const MOST_TRIED: usize = 8;

// A lower bound of a multiple of an expression by the ranges and one fact.
fn least_by_fact(bounds: &Ranges, factor: i128, expression: &Linear, fact: &Linear) -> Option<i128>
    ensures { IsFromBy (numbered 0 bounds.now) fact.now (λ r. factor *ℤ number_at r expression.now) result }
{
    let terms = expression.terms();
    let most = if terms.len() > MOST_TRIED {
        MOST_TRIED
    } else {
        terms.len()
    };
    let mut best = None;
    for term in &terms[..most] {
        let c = coefficient_of(fact.terms(), term.0);
        best = greater(
            best,
            least_by_term(bounds, factor, expression, term.1, fact, c),
        );
    }
    best
}

// A lower bound of a multiple of an expression by the ranges alone.
fn least_by_ranges(bounds: &Ranges, factor: i128, expression: &Linear) -> Option<i128>
    ensures { (fs : List Expression) → IsFromAll (numbered 0 bounds.now) fs (λ r. factor *ℤ number_at r expression.now) result }
{
    least_combined(bounds, factor, expression, 0, expression)
}

/// The greatest lower bound of a multiple of an expression that the ranges show, or they and one of the newest facts.
pub(crate) fn least_by_facts(
    bounds: &Ranges,
    facts: &[Linear],
    factor: i128,
    expression: &Linear,
) -> Option<i128>
    ensures { IsFromAll (numbered 0 bounds.now) facts.now (λ r. factor *ℤ number_at r expression.now) result }
{
    let mut best = least_by_ranges(bounds, factor, expression);
    let mut looked = 0;
    let mut taken = 0;
    for newer in 0..MOST_FACTS {
        if newer >= facts.len() || looked >= MOST_FACTS || taken >= MOST_TAKEN {
            return best;
        }
        let fact = &facts[facts.len() - newer - 1];
        let bound = least_by_fact(bounds, factor, expression, fact);
        looked = counted_with(looked, fact);
        if bound.is_some() {
            taken = counted_with(taken, fact);
        }
        best = greater(best, bound);
    }
    best
}

// Whether a lower bound is there and shows that numbers are at least 0.
fn is_natural(bound: Option<i128>) -> bool
    ensures { result ≡ true → (n : ℤ) → IsFrom bound n → pos 0 ≤ℤ n }
{
    match bound {
        Some(bound) => bound >= 0,
        None => false,
    }
}

// Whether a lower bound is there and shows that numbers are above 0.
fn is_positive(bound: Option<i128>) -> bool
    ensures { result ≡ true → (n : ℤ) → IsFrom bound n → pos 0 <ℤ n }
{
    match bound {
        Some(bound) => bound > 0,
        None => false,
    }
}

/// Whether the ranges alone show that an expression is at least 0, or they and facts one after another.
pub fn follows(bounds: &Ranges, facts: &[Linear], expression: &Linear) -> bool
    ensures { result ≡ true → IsShown (numbered 0 bounds.now) facts.now expression.now }
{
    let by_ranges = is_natural(least_by_ranges(bounds, 1, expression));
    if by_ranges {
        return true;
    }
    is_natural(least_by_chain(bounds, facts, 1, expression))
}

/// .. or they and the facts from a place on.
pub fn follows_newest(bounds: &Ranges, facts: &[Linear], from: usize, expression: &Linear) -> bool
    ensures { result ≡ true → IsShown (numbered 0 bounds.now) facts.now expression.now }
{
    if from > facts.len() {
        return false;
    }
    follows(bounds, &facts[from..], expression)
}

/// Whether an expression is shown to be at least 0: it follows, or one of the facts shows it.
pub fn shown(bounds: &Ranges, facts: &[Linear], expression: &Linear) -> bool
    ensures { result ≡ true → IsShown (numbered 0 bounds.now) facts.now expression.now }
{
    let chained = follows(bounds, facts, expression);
    if chained {
        return true;
    }
    is_natural(least_by_facts(bounds, facts, 1, expression))
}

// The greater of the lower bounds of a multiple of an expression that one fact and several show.
fn least_by_all(
    bounds: &Ranges,
    facts: &[Linear],
    factor: i128,
    expression: &Linear,
) -> Option<i128>
    ensures { IsFromAll (numbered 0 bounds.now) facts.now (λ r. factor *ℤ number_at r expression.now) result }
{
    greater(
        least_by_facts(bounds, facts, factor, expression),
        least_by_chain(bounds, facts, factor, expression),
    )
}

/// Whether ranges and facts show that an expression is below 0: the ranges alone, or facts.
pub fn refuted(bounds: &Ranges, facts: &[Linear], expression: &Linear) -> bool
    ensures { result ≡ true → IsRefuted (numbered 0 bounds.now) facts.now expression.now }
{
    let by_ranges = is_positive(least_by_ranges(bounds, -1, expression));
    if by_ranges {
        return true;
    }
    is_positive(least_by_all(bounds, facts, -1, expression))
}

/// A lower bound of an expression by ranges and facts.
pub fn least_shown(bounds: &Ranges, facts: &[Linear], expression: &Linear) -> Option<i128>
    ensures { IsFromAll (numbered 0 bounds.now) facts.now (λ r. number_at r expression.now) result }
{
    least_by_all(bounds, facts, 1, expression)
}

/// .. by the ranges alone, where they show one.
pub fn some_least(bounds: &Ranges, facts: &[Linear], expression: &Linear) -> Option<i128>
    ensures { IsFromAll (numbered 0 bounds.now) facts.now (λ r. number_at r expression.now) result }
{
    let alone = least_by_ranges(bounds, 1, expression);
    if alone.is_some() {
        return alone;
    }
    least_shown(bounds, facts, expression)
}

/// An upper bound of an expression by ranges and facts.
pub fn greatest_shown(bounds: &Ranges, facts: &[Linear], expression: &Linear) -> Option<i128>
    ensures { IsUpToAll (numbered 0 bounds.now) facts.now (λ r. number_at r expression.now) result }
{
    let bound = least_by_all(bounds, facts, -1, expression)?;
    negation(bound)
}
