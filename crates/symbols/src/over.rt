//! Expressions over numbers. What they are is looked for, and what is learned by them is asked again: so no clause is needed.
use crate::symbols::Symbols;
use evaluation::collections::Memory;
use linear::{Linear, Term, is_below, negation};

// The coefficient of a symbol in terms, 0 where it isn't there.
fn coefficient_of(terms: &[Term], symbol: usize) -> i128 {
    for term in terms {
        if term.0 == symbol {
            return term.1;
        }
    }
    0
}

/// What lies over an expression by a fact that takes its newest symbol out: without its constant, and a lone symbol once.
pub(crate) fn next_over(expression: &Linear, fact: &Linear) -> Result<Option<Linear>, Memory> {
    let terms = expression.terms();
    if terms.is_empty() {
        return Ok(None);
    }
    let newest = terms[0];
    if newest.1 != 1 {
        return Ok(None);
    }
    let scale = match negation(coefficient_of(fact.terms(), newest.0)) {
        Some(times) => times,
        None => 0,
    };
    if scale <= 0 {
        return Ok(None);
    }
    let sum = expression.combine(scale, fact, 1)?;
    match sum {
        Some(whole) => symbols_alone(&whole),
        None => Ok(None),
    }
}

// An expression without its constant; a symbol alone where it is a multiple of one.
fn symbols_alone(expression: &Linear) -> Result<Option<Linear>, Memory> {
    let terms = expression.terms();
    if terms.is_empty() {
        return Ok(None);
    }
    if terms.len() == 1 && terms[0].1 > 0 {
        let lone = Linear::symbol(expression.memory(), terms[0].0)?;
        return Ok(Some(lone));
    }
    match negation(expression.constant()) {
        Some(less) => expression.raised(less),
        None => Ok(None),
    }
}

/// Whether it follows that an expression over symbols below a count lies over another.
pub(crate) fn lies_over(
    symbols: &Symbols,
    count: usize,
    side: &Linear,
    expression: &Linear,
) -> Result<bool, Memory> {
    if !is_below(side.terms(), count) {
        return Ok(false);
    }
    let difference = side.minus(expression)?;
    match difference {
        Some(d) => Ok(symbols.follows_since(0, &d)),
        None => Ok(false),
    }
}

/// An expression over symbols below a count, less so much that it still lies over the number of one case and that of the other,
/// where it is shown to.
pub(crate) fn lowered(
    one: &Symbols,
    left: &Linear,
    other: &Symbols,
    right: &Linear,
    count: usize,
    side: &Linear,
) -> Result<Option<Linear>, Memory> {
    if !is_below(side.terms(), count) {
        return Ok(None);
    }
    let first = distance(one, left, side)?;
    if first < 0 {
        return Ok(None);
    }
    let second = distance(other, right, side)?;
    if second < 0 {
        return Ok(None);
    }
    match negation(if second < first { second } else { first }) {
        Some(less) => side.raised(less),
        None => Ok(None),
    }
}

// How far an expression is shown to lie over another at least; below 0 where it isn't.
fn distance(symbols: &Symbols, expression: &Linear, over: &Linear) -> Result<i128, Memory> {
    let difference = over.minus(expression)?;
    match difference {
        Some(d) => Ok(symbols.least(&d).unwrap_or(-1)),
        None => Ok(-1),
    }
}
