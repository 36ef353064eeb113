//! What ranges and several facts show of an expression: one symbol after another is taken out of it, without memory.
ghost use Rattle.std.specs.Prelude.{◌≡◌, ◌≤◌, ◌<◌, pos, ◌<ℤ◌, ◌+ℤ◌, ◌*ℤ◌, length};
ghost use Rattle.std.specs.Option.{IfSome};
ghost use Rattle.linear.specs.Linear.{sum_at, number_at};
ghost use Rattle.linear.specs.Bounded.{numbered, IsLeast, IsFromAll};
ghost use Rattle.linear.specs.ChainSupport.{IsPutIn, IsFilled, IsTakenOut, AddsLeastOfFirst, RoundsUp};

use crate::bounds::{
    Bounds, MOST_FACTS, MOST_TAKEN, above_zero, coefficient_of, counted_with, greater,
    have_one_sign, least_term, least_terms, not_above_zero, rounded_up,
};
use crate::checked::{product, sum};
use crate::linear::{Linear, both_times};
use crate::ranges::Ranges;
use crate::terms::{MOST_SYMBOLS, Term, next_symbol, number_of, step};

// The most symbols that are taken out one after another.
const MOST_STEPS: usize = 32;

// Puts a symbol behind so many terms, unless its coefficient is 0, and returns how many stand there then; none where
// there is no room.
fn put_at(out: &mut [Term], count: usize, symbol: usize, coefficient: i128) -> Option<usize>
    requires within { count ≤ length out.old }
    requires few { length out.old ≤ 32 }
    ensures few { length out.new ≤ 32 }
    ensures put { IfSome result (IsPutIn out.old out.new count symbol coefficient) }
{
    if coefficient == 0 {
        return Some(count);
    }
    if count >= out.len() {
        return None;
    }
    out[count] = (symbol, coefficient);
    Some(count + 1)
}

// Puts a multiple of some terms and one of others, added, into a list, and returns how many they are; none where a
// coefficient leaves 128 bits or there is no room.
fn fill(
    out: &mut [Term],
    factor: i128,
    left: &[Term],
    other_factor: i128,
    right: &[Term],
) -> Option<usize>
    requires few { length out.old ≤ 32 }
    ensures { IfSome result (IsFilled factor left.now other_factor right.now out.new) }
{
    let mut count = 0;
    let mut i = 0;
    let mut j = 0;
    for _ in 0..2 * MOST_SYMBOLS + 1 {
        match next_symbol(left, i, right, j) {
            None => return Some(count),
            Some(symbol) => {
                let (coefficient, k, l) = step(factor, left, i, other_factor, right, j, symbol)?;
                count = put_at(out, count, symbol, coefficient)?;
                i = k;
                j = l;
            }
        }
    }
    None
}

// A lower bound of a number and terms by the ranges alone.
fn least_alone(bounds: &Ranges, constant: i128, terms: &[Term]) -> Option<i128>
    ensures { IfSome result (IsLeast (numbered 0 bounds.now) (λ r. constant +ℤ sum_at r terms.now)) }
{
    let bound = least_terms(bounds, 1, terms, 0, terms)?;
    sum(constant, bound)
}

// Whether a fact has the same newest symbol as some terms, with a coefficient of the same sign.
fn is_usable(terms: &[Term], fact: &Linear) -> bool {
    if terms.is_empty() || fact.terms().is_empty() {
        return false;
    }
    let mine = terms[0];
    let other = fact.terms()[0];
    mine.0 == other.0 && have_one_sign(mine.1, other.1)
}

// A lower bound of a number and terms by the ranges, where their newest symbol is taken out by a fact.
fn least_with(bounds: &Ranges, constant: i128, terms: &[Term], fact: &Linear) -> Option<i128> {
    if terms.is_empty() {
        return None;
    }
    let (symbol, coefficient) = terms[0];
    let scale = above_zero(coefficient_of(fact.terms(), symbol))?;
    let taken = not_above_zero(coefficient)?;
    let base = both_times(scale, constant, taken, fact.constant())?;
    let bound = least_terms(bounds, scale, terms, taken, fact.terms())?;
    let whole = sum(base, bound)?;
    rounded_up(whole, scale)
}

// A lower bound by the ranges, where the newest symbol is taken out by a fact, and the newest of what is left by another.
fn least_ahead(
    bounds: &Ranges,
    facts: &[Linear],
    constant: i128,
    terms: &[Term],
    fact: &Linear,
) -> Option<i128> {
    let mut out = [(0, 0); MOST_SYMBOLS];
    let (base, count, scale) = take_out(&mut out, constant, terms, fact)?;
    let mut best = None;
    let mut looked = 0;
    let mut taken = 0;
    for newer in 0..MOST_FACTS {
        if newer >= facts.len() || looked >= MOST_FACTS || taken >= MOST_TAKEN {
            return rounded(best, scale);
        }
        let next = &facts[facts.len() - newer - 1];
        looked = counted_with(looked, next);
        if is_usable(&out[..count], next) {
            taken = counted_with(taken, next);
            best = greater(best, least_with(bounds, base, &out[..count], next));
        }
    }
    rounded(best, scale)
}

fn is_better(bound: Option<i128>, than: Option<i128>) -> bool {
    match (bound, than) {
        (Some(m), Some(n)) => n < m,
        (_, None) => true,
        (None, _) => false,
    }
}

// The fact among the newest by which taking out the newest symbol shows most, alone or with another behind it, if that is
// more than the ranges show.
fn best_fact(
    bounds: &Ranges,
    facts: &[Linear],
    constant: i128,
    terms: &[Term],
    alone: Option<i128>,
) -> Option<usize>
    ensures { IfSome result (λ at. at < length facts.now) }
{
    let mut best = alone;
    let mut found = None;
    let mut looked = 0;
    let mut taken = 0;
    for newer in 0..MOST_FACTS {
        if newer >= facts.len() || looked >= MOST_FACTS || taken >= MOST_TAKEN {
            return found;
        }
        let at = facts.len() - newer - 1;
        looked = counted_with(looked, &facts[at]);
        if is_usable(terms, &facts[at]) {
            taken = counted_with(taken, &facts[at]);
            let mut bound = least_with(bounds, constant, terms, &facts[at]);
            if !is_better(bound, best) {
                bound = least_ahead(bounds, facts, constant, terms, &facts[at]);
            }
            if is_better(bound, best) {
                best = bound;
                found = Some(at);
            }
        }
    }
    found
}

// Takes the newest symbol out by a fact: the number, how many terms are put into `out`, and by what all of it was
// multiplied.
fn take_out(
    out: &mut [Term],
    constant: i128,
    terms: &[Term],
    fact: &Linear,
) -> Option<(i128, usize, i128)>
    requires few { length out.old ≤ 32 }
    ensures { IfSome result (IsTakenOut constant terms.now fact.now out.new) }
{
    if terms.is_empty() {
        return None;
    }
    let (symbol, coefficient) = terms[0];
    let scale = above_zero(coefficient_of(fact.terms(), symbol))?;
    let taken = not_above_zero(coefficient)?;
    let base = both_times(scale, constant, taken, fact.constant())?;
    let count = fill(out, scale, terms, taken, fact.terms())?;
    Some((base, count, scale))
}

// The number with the least that the first of the terms can be.
fn lowered(bounds: &Ranges, constant: i128, terms: &[Term]) -> Option<i128>
    requires { 0 < length terms.now }
    ensures { IfSome result (AddsLeastOfFirst bounds.now constant terms.now) }
{
    let coefficient = number_of(&terms[0]);
    let bound = least_term(bounds, terms[0].0, coefficient)?;
    sum(constant, bound)
}

// A lower bound of a multiple, rounded up to one of the number.
fn rounded(bound: Option<i128>, scale: i128) -> Option<i128>
    requires { pos 0 <ℤ scale }
    ensures { RoundsUp scale bound result }
{
    match bound {
        Some(number) => rounded_up(number, scale),
        None => None,
    }
}

// A lower bound of a number and terms by ranges and facts: the newest symbol is taken out by the fact that shows most,
// or else by its range, and so on with what is left.
fn least_in_steps(
    bounds: &Ranges,
    facts: &[Linear],
    steps: usize,
    constant: i128,
    terms: &[Term],
) -> Option<i128>
    ensures { IsFromAll (numbered 0 bounds.now) facts.now (λ r. constant +ℤ sum_at r terms.now) result }
{
    let alone = least_alone(bounds, constant, terms);
    if steps == 0 || terms.is_empty() {
        return alone;
    }
    match best_fact(bounds, facts, constant, terms, alone) {
        Some(at) => {
            let mut out = [(0, 0); MOST_SYMBOLS];
            match take_out(&mut out, constant, terms, &facts[at]) {
                Some((base, count, scale)) => {
                    let rest = least_in_steps(bounds, facts, steps - 1, base, &out[..count]);
                    greater(alone, rounded(rest, scale))
                }
                None => alone,
            }
        }
        None => match lowered(bounds, constant, terms) {
            Some(base) => {
                let rest = least_in_steps(bounds, facts, steps - 1, base, &terms[1..]);
                greater(alone, rest)
            }
            None => alone,
        },
    }
}

/// A lower bound of a multiple of an expression that the ranges and several of the newest facts show together.
pub(crate) fn least_by_chain(
    bounds: &Ranges,
    facts: &[Linear],
    factor: i128,
    expression: &Linear,
) -> Option<i128>
    ensures { IsFromAll (numbered 0 bounds.now) facts.now (λ r. factor *ℤ number_at r expression.now) result }
{
    let base = product(factor, expression.constant())?;
    let mut out = [(0, 0); MOST_SYMBOLS];
    let count = fill(&mut out, factor, expression.terms(), 0, expression.terms())?;
    least_in_steps(bounds, facts, MOST_STEPS, base, &out[..count])
}
