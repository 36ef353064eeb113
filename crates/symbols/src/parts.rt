//! Products of sums: the products of their parts, added.
ghost use Rattle.std.specs.Prelude.{◌≡◌, ℤ, ◌<◌, neg_ℤ, ◌*ℤ◌, IfOk, OnOk, false};
ghost use Rattle.std.specs.Option.{IfSome};
ghost use Rattle.linear.specs.Linear.{IsBelow, IsFrom, IsUpTo};
ghost use Rattle.symbols.specs.Results.{GivesResult};
ghost use Rattle.symbols.specs.Products.{LearnsProduct};
ghost use Rattle.symbols.specs.Parts.{IsParted, IsMultiple, GivesSum};

use crate::apart::cancels;
use crate::products::{learn_from, learn_product, learn_up_to};
use crate::symbols::Symbols;
use evaluation::collections::Memory;
use linear::{Bounds, Linear, negation, product_range};

// The most products of two symbols that a product is taken apart to: 4.
const MOST_PRODUCTS: usize = 4;

// The most steps in which it is: 16.
const MOST_STEPS: u32 = 16;

// How many parts an expression has: its symbols, and its number where that isn't 0.
fn count_parts(expression: &Linear) -> usize {
    let symbols = expression.terms().len();
    if expression.constant() == 0 {
        symbols
    } else {
        symbols.saturating_add(1)
    }
}

// Whether expressions are one part each.
fn are_one_part(first: &Linear, second: &Linear) -> bool {
    count_parts(first) == 1 && count_parts(second) == 1
}

// Whether an expression is a sum of several symbols, or what is left of a number.
fn is_sum(expression: &Linear) -> bool {
    let terms = expression.terms();
    terms.len() > 1 || (terms.len() == 1 && terms[0].1 < 0 && expression.constant() != 0)
}

// Whether a product of two expressions is taken apart: where one of them is a sum, and it has few parts.
fn is_taken_apart(first: &Linear, second: &Linear) -> bool {
    let products = first.terms().len().saturating_mul(second.terms().len());
    products <= MOST_PRODUCTS && (is_sum(first) || is_sum(second))
}

/// The product of two expressions.
pub(crate) fn product_of_parts(
    symbols: &mut Symbols,
    first: &Linear,
    second: &Linear,
) -> Result<Linear, Memory>
    ensures { IfOk result (λ e. GivesResult false symbols.old symbols.new first.now second.now e) }
{
    if first.is_number() || second.is_number() {
        symbols.plain_product(first, second)
    } else if are_one_part(first, second) {
        by_symbols(symbols, first, second)
    } else if is_taken_apart(first, second) {
        product_of_sums(symbols, first, second)
    } else {
        symbols.numbered_product(first, second)
    }
}

// .. of which one is a sum. Its range is known, and how it lies to multiples of both where a part is new, beside what is known of the
// products of the parts.
fn product_of_sums(symbols: &mut Symbols, first: &Linear, second: &Linear) -> Result<Linear, Memory>
    ensures { IfOk result (λ e. GivesResult false symbols.old symbols.new first.now second.now e) }
{
    let left = symbols.range_of(first);
    let right = symbols.range_of(second);
    let count = symbols.count();
    let e = by_parts(symbols, first, second, MOST_STEPS)?;
    learn_range(symbols, first, second, &e, left, right)?;
    let now = symbols.count();
    if now == count {
        return Ok(e);
    }
    learn_product(symbols, first, second, &e, left, right)?;
    Ok(e)
}

// Whether the ranges alone show that an expression is no less than a number, if there is one.
fn is_from(symbols: &Symbols, expression: &Linear, least: Option<i128>) -> bool {
    match (least, symbols.some_least(expression)) {
        (None, _) => true,
        (Some(bound), Some(shown)) => bound <= shown,
        (Some(_), None) => false,
    }
}

// .. that it is no more.
fn is_up_to(
    symbols: &Symbols,
    expression: &Linear,
    greatest: Option<i128>,
) -> Result<bool, Memory> {
    match greatest {
        None => Ok(true),
        Some(bound) => {
            let opposite = expression.times(-1)?;
            match opposite {
                Some(other) => Ok(is_from(symbols, &other, negation(bound))),
                None => Ok(false),
            }
        }
    }
}

// A bound, unless it is known.
fn unless(known: bool, bound: Option<i128>) -> Option<i128>
    ensures least { (n : ℤ) → IsFrom bound n → IsFrom result n }
    ensures greatest { (n : ℤ) → IsUpTo bound n → IsUpTo result n }
{
    if known { None } else { bound }
}

// Learns that a product lies in the range that those of its factors give, where the ranges of its parts don't say so.
fn learn_range(
    symbols: &mut Symbols,
    first: &Linear,
    second: &Linear,
    product: &Linear,
    left: Bounds,
    right: Bounds,
) -> Result<(), Memory>
    ensures { OnOk result (LearnsProduct left right symbols.old symbols.new first.now second.now product.now) }
{
    let _first = first;
    let _second = second;
    let range = product_range(left, right);
    let least = unless(is_from(symbols, product, range.least), range.least);
    let most = is_up_to(symbols, product, range.greatest)?;
    let greatest = unless(most, range.greatest);
    let one = Linear::number(product.memory(), 1);
    learn_from(symbols, product, &one, least)?;
    learn_up_to(symbols, product, &one, greatest)?;
    Ok(())
}

// An expression in two parts.
struct Parted {
    head: Linear,
    tail: Linear,
}

// Dropped once.
impl Drop for Parted {
    fn drop(self) {
        let Parted { head: _, tail: _ } = self;
    }
}

// An expression in two parts, of which the first is its number, or its newest symbol; none where it is one part.
fn in_parts(count: usize, expression: &Linear) -> Result<Option<Parted>, Memory>
    ensures { IfOk result (λ o. IfSome o (λ p. IsParted count expression.now p.head p.tail)) }
{
    if count_parts(expression) < 2 {
        return Ok(None);
    }
    let head = head_of(count, expression)?;
    match head {
        Some(head) => with_rest(count, expression, head),
        None => Ok(None),
    }
}

// Its number where that isn't 0, and else its newest symbol.
fn head_of(count: usize, expression: &Linear) -> Result<Option<Linear>, Memory>
    ensures { IfOk result (λ o. IfSome o (λ e. IsBelow count e)) }
{
    let constant = expression.constant();
    if constant != 0 {
        return Ok(Some(Linear::number(expression.memory(), constant)));
    }
    let terms = expression.terms();
    if terms.len() == 0 {
        return Ok(None);
    }
    let (name, coefficient) = terms[0];
    symbol_times(count, expression, name, coefficient)
}

// A symbol times a number, where it is one of so many.
fn symbol_times(
    count: usize,
    expression: &Linear,
    name: usize,
    coefficient: i128,
) -> Result<Option<Linear>, Memory>
    ensures { IfOk result (λ o. IfSome o (λ e. IsBelow count e)) }
{
    if name >= count {
        return Ok(None);
    }
    let symbol = Linear::symbol(expression.memory(), name)?;
    let times = symbol.times(coefficient)?;
    Ok(times)
}

// A part of an expression, and what is left of it.
fn with_rest(count: usize, expression: &Linear, head: Linear) -> Result<Option<Parted>, Memory>
    requires { IsBelow count head }
    ensures { IfOk result (λ o. IfSome o (λ p. IsParted count expression.now p.head p.tail)) }
{
    let _count = count;
    let rest = expression.minus(&head)?;
    match rest {
        Some(tail) => Ok(Some(Parted { head, tail })),
        None => Ok(None),
    }
}

// The product of two expressions, by their parts, in at most so many steps: where the first is in two, the products of both, added.
#[cycle(products)]
fn by_parts(
    symbols: &mut Symbols,
    first: &Linear,
    second: &Linear,
    steps: u32,
) -> Result<Linear, Memory>
    ensures { IfOk result (λ e. GivesResult false symbols.old symbols.new first.now second.now e) }
{
    if steps == 0 || first.is_number() || second.is_number() {
        return symbols.plain_product(first, second);
    }
    let rest = steps - 1;
    let apart = in_parts(symbols.count(), first)?;
    match apart {
        Some(parts) => {
            let one = by_parts(symbols, &parts.head, second, rest)?;
            let other = by_parts(symbols, &parts.tail, second, rest)?;
            sum(symbols, &one, &other)
        }
        None => by_second(symbols, first, second, rest),
    }
}

// .. where the first is one part: by the parts of the second, if it has some.
#[cycle(products)]
fn by_second(
    symbols: &mut Symbols,
    first: &Linear,
    second: &Linear,
    steps: u32,
) -> Result<Linear, Memory>
    ensures { IfOk result (λ e. GivesResult false symbols.old symbols.new first.now second.now e) }
{
    let more = count_parts(second) > 1;
    if more {
        by_parts(symbols, second, first, steps)
    } else {
        by_symbols(symbols, first, second)
    }
}

// The sum of two expressions, or a new symbol where it leaves 128 bits or has too many symbols.
fn sum(symbols: &mut Symbols, left: &Linear, right: &Linear) -> Result<Linear, Memory>
    ensures { IfOk result (λ e. GivesSum symbols.old symbols.new left.now right.now e) }
{
    let exact = left.plus(right)?;
    match exact {
        Some(e) => Ok(e),
        None => symbols.unknown(),
    }
}

// A multiple of a symbol.
struct Multiple {
    symbol: Linear,
    coefficient: i128,
}

// Dropped once.
impl Drop for Multiple {
    fn drop(self) {
        let Multiple {
            symbol: _,
            coefficient: _,
        } = self;
    }
}

// The multiple of a symbol that an expression is, if it is one.
fn multiple_of(count: usize, expression: &Linear) -> Result<Option<Multiple>, Memory>
    ensures { IfOk result (λ o. IfSome o (λ m. IsMultiple count expression.now m.symbol m.coefficient)) }
{
    let terms = expression.terms();
    if terms.len() != 1 {
        return Ok(None);
    }
    let (name, coefficient) = terms[0];
    if name >= count {
        return Ok(None);
    }
    match negation(coefficient) {
        Some(opposite) => checked_multiple(count, expression, name, coefficient, opposite),
        None => Ok(None),
    }
}

// .. where it is the coefficient times the symbol.
fn checked_multiple(
    count: usize,
    expression: &Linear,
    name: usize,
    coefficient: i128,
    opposite: i128,
) -> Result<Option<Multiple>, Memory>
    requires below { name < count }
    requires opposite { opposite ≡ neg_ℤ coefficient }
    ensures { IfOk result (λ o. IfSome o (λ m. IsMultiple count expression.now m.symbol m.coefficient)) }
{
    let _count = count;
    let symbol = Linear::symbol(expression.memory(), name)?;
    let is = cancels(expression, &symbol, opposite)?;
    if is {
        Ok(Some(Multiple {
            symbol,
            coefficient,
        }))
    } else {
        Ok(None)
    }
}

// The product of two numbers, where it has 128 bits.
fn times(left: i128, right: i128) -> Option<i128>
    ensures { IfSome result (λ n. n ≡ left *ℤ right) }
{
    left.checked_mul(right)
}

// Whether an expression is a symbol, and nothing else.
fn is_lone(expression: &Linear) -> bool {
    let terms = expression.terms();
    terms.len() == 1 && terms[0].1 == 1 && expression.constant() == 0
}

// The product of two expressions that are one part each: a multiple of the product of two symbols.
fn by_symbols(symbols: &mut Symbols, first: &Linear, second: &Linear) -> Result<Linear, Memory>
    ensures { IfOk result (λ e. GivesResult false symbols.old symbols.new first.now second.now e) }
{
    let lone = is_lone(first) && is_lone(second);
    if lone {
        in_order(symbols, first, second)
    } else {
        by_multiples(symbols, first, second)
    }
}

// .. where one of them isn't a symbol.
fn by_multiples(symbols: &mut Symbols, first: &Linear, second: &Linear) -> Result<Linear, Memory>
    ensures { IfOk result (λ e. GivesResult false symbols.old symbols.new first.now second.now e) }
{
    let multiple = multiple_of(symbols.count(), first)?;
    match multiple {
        Some(one) => by_symbol(symbols, first, second, &one),
        None => symbols.numbered_product(first, second),
    }
}

// .. of which the first is a multiple of a symbol.
fn by_symbol(
    symbols: &mut Symbols,
    first: &Linear,
    second: &Linear,
    one: &Multiple,
) -> Result<Linear, Memory>
    requires { IsMultiple symbols.old.next first.now one.now.symbol one.now.coefficient }
    ensures { IfOk result (λ e. GivesResult false symbols.old symbols.new first.now second.now e) }
{
    let multiple = multiple_of(symbols.count(), second)?;
    match multiple {
        Some(other) => product_of_multiples(symbols, first, second, one, &other),
        None => symbols.numbered_product(first, second),
    }
}

// .. and the second as well.
fn product_of_multiples(
    symbols: &mut Symbols,
    first: &Linear,
    second: &Linear,
    one: &Multiple,
    other: &Multiple,
) -> Result<Linear, Memory>
    requires one { IsMultiple symbols.old.next first.now one.now.symbol one.now.coefficient }
    requires other { IsMultiple symbols.old.next second.now other.now.symbol other.now.coefficient }
    ensures { IfOk result (λ e. GivesResult false symbols.old symbols.new first.now second.now e) }
{
    match times(one.coefficient, other.coefficient) {
        Some(factor) => multiple_of_product(symbols, first, second, one, other, factor),
        None => symbols.numbered_product(first, second),
    }
}

fn multiple_of_product(
    symbols: &mut Symbols,
    first: &Linear,
    second: &Linear,
    one: &Multiple,
    other: &Multiple,
    factor: i128,
) -> Result<Linear, Memory>
    requires one { IsMultiple symbols.old.next first.now one.now.symbol one.now.coefficient }
    requires other { IsMultiple symbols.old.next second.now other.now.symbol other.now.coefficient }
    requires factor { factor ≡ one.now.coefficient *ℤ other.now.coefficient }
    ensures { IfOk result (λ e. GivesResult false symbols.old symbols.new first.now second.now e) }
{
    let _first = first;
    let _second = second;
    let base = in_order(symbols, &one.symbol, &other.symbol)?;
    symbols.multiple(&base, factor)
}

// The newest symbol of an expression, or 0.
fn newest_symbol(expression: &Linear) -> usize {
    let terms = expression.terms();
    if terms.len() == 0 { 0 } else { terms[0].0 }
}

// The product of two symbols: the older stands first, so that it is known again whichever stands first.
fn in_order(symbols: &mut Symbols, one: &Linear, other: &Linear) -> Result<Linear, Memory>
    ensures { IfOk result (λ e. GivesResult false symbols.old symbols.new one.now other.now e) }
{
    let turned = newest_symbol(one) > newest_symbol(other);
    if turned {
        symbols.numbered_product(other, one)
    } else {
        symbols.numbered_product(one, other)
    }
}
