//! A number that is one of two.
ghost use Rattle.std.specs.Prelude.{◌≡◌, true, IfOk, OnOk};
ghost use Rattle.symbols.specs.Either.{GivesEither, IsUnder, IsOver, IsAtLeast, LearnsLeast, Relates};

use crate::apart::cancels;
use crate::branched::{Branched, SharedBranch};
use crate::branches::{keep_sides, lone_symbol, symbol_of_either};
use crate::over::{lies_over, lowered, next_over};
use crate::symbols::Symbols;
use evaluation::collections::{Memory, TryClone};
use linear::{Linear, greatest_of_both, is_below, least_of_both};

// The most branches of a case, the newest, whose numbers are looked at: 8.
const MOST_RELATED: usize = 8;

// The most expressions over the number of a case that are looked at: 3.
const MOST_OVER: usize = 3;

// Whether an expression is shown to be at most the one of one case and the one of the other.
fn is_under(
    one: &Symbols,
    left: &Linear,
    other: &Symbols,
    right: &Linear,
    side: &Linear,
) -> Result<bool, Memory>
    ensures { IfOk result (λ yes. yes ≡ true → IsUnder one.now left.now other.now right.now side.now) }
{
    let first = is_at_least(one, left, side)?;
    if !first {
        return Ok(false);
    }
    let second = is_at_least(other, right, side)?;
    Ok(second)
}

// Whether an expression is shown to be at least the one of one case and the one of the other.
fn is_over(
    one: &Symbols,
    left: &Linear,
    other: &Symbols,
    right: &Linear,
    side: &Linear,
) -> Result<bool, Memory>
    ensures { IfOk result (λ yes. yes ≡ true → IsOver one.now left.now other.now right.now side.now) }
{
    let first = is_at_least(one, side, left)?;
    if !first {
        return Ok(false);
    }
    let second = is_at_least(other, side, right)?;
    Ok(second)
}

// Whether an expression is shown to be at least another.
fn is_at_least(symbols: &Symbols, expression: &Linear, least: &Linear) -> Result<bool, Memory>
    ensures { IfOk result (λ yes. yes ≡ true → IsAtLeast symbols.now expression.now least.now) }
{
    let difference = expression.minus(least)?;
    match difference {
        Some(d) => Ok(symbols.shows(&d)),
        None => Ok(false),
    }
}

// Learns that an expression is at least another.
fn learn_least(symbols: &mut Symbols, expression: &Linear, least: &Linear) -> Result<(), Memory>
    ensures { OnOk result (LearnsLeast symbols.old symbols.new expression.now least.now) }
{
    let difference = expression.minus(least)?;
    match difference {
        Some(d) => symbols.learn(d),
        None => Ok(()),
    }
}

// Learns that an expression is at least another, where that lies over both.
fn relate_below(
    symbols: &mut Symbols,
    one: &Symbols,
    left: &Linear,
    other: &Symbols,
    right: &Linear,
    count: usize,
    number: &Linear,
    side: &Linear,
) -> Result<(), Memory>
    ensures { OnOk result (Relates symbols.old symbols.new one.now left.now other.now right.now count number.now) }
{
    let older = is_below(side.terms(), count);
    if !older {
        return Ok(());
    }
    let yes = is_under(one, left, other, right, side)?;
    if !yes {
        return Ok(());
    }
    learn_least(symbols, number, side)?;
    Ok(())
}

// Learns that an expression is at most another, where that lies under both.
fn relate_above(
    symbols: &mut Symbols,
    one: &Symbols,
    left: &Linear,
    other: &Symbols,
    right: &Linear,
    count: usize,
    number: &Linear,
    side: &Linear,
) -> Result<(), Memory>
    ensures { OnOk result (Relates symbols.old symbols.new one.now left.now other.now right.now count number.now) }
{
    let older = is_below(side.terms(), count);
    if !older {
        return Ok(());
    }
    let yes = is_over(one, left, other, right, side)?;
    if !yes {
        return Ok(());
    }
    learn_least(symbols, side, number)?;
    Ok(())
}

// Learns how an expression lies to those of both cases.
fn relate(
    symbols: &mut Symbols,
    one: &Symbols,
    left: &Linear,
    other: &Symbols,
    right: &Linear,
    count: usize,
    number: &Linear,
) -> Result<(), Memory>
    ensures { OnOk result (Relates symbols.old symbols.new one.now left.now other.now right.now count number.now) }
{
    relate_below(symbols, one, left, other, right, count, number, left)?;
    relate_above(symbols, one, left, other, right, count, number, left)?;
    relate_below(symbols, one, left, other, right, count, number, right)?;
    relate_above(symbols, one, left, other, right, count, number, right)?;
    Ok(())
}

// Learns how an expression lies to the number of a branch, if it is one of a symbol's.
fn relate_branch(
    symbols: &mut Symbols,
    one: &Symbols,
    left: &Linear,
    other: &Symbols,
    right: &Linear,
    count: usize,
    number: &Linear,
    branch: &Branched,
    own: usize,
) -> Result<(), Memory>
    ensures { OnOk result (Relates symbols.old symbols.new one.now left.now other.now right.now count number.now) }
{
    if branch.symbol != own {
        return Ok(());
    }
    relate_below(
        symbols,
        one,
        left,
        other,
        right,
        count,
        number,
        &branch.number,
    )?;
    relate_above(
        symbols,
        one,
        left,
        other,
        right,
        count,
        number,
        &branch.number,
    )?;
    Ok(())
}

// Learns how an expression lies to the numbers that a symbol has in the newest branches.
fn relate_branches(
    symbols: &mut Symbols,
    one: &Symbols,
    left: &Linear,
    other: &Symbols,
    right: &Linear,
    count: usize,
    number: &Linear,
    branches: &[SharedBranch],
    own: usize,
) -> Result<(), Memory>
    ensures { OnOk result (Relates symbols.old symbols.new one.now left.now other.now right.now count number.now) }
{
    for at in branches.len().saturating_sub(MOST_RELATED)..branches.len() {
        relate_branch(
            symbols,
            one,
            left,
            other,
            right,
            count,
            number,
            branches[at].get(),
            own,
        )?;
    }
    Ok(())
}

// Learns how an expression lies to the numbers that a newer symbol of a case, which the expression is there, has in branches:
// so the greatest of three is known to be no less than each.
fn relate_inner(
    symbols: &mut Symbols,
    one: &Symbols,
    left: &Linear,
    other: &Symbols,
    right: &Linear,
    count: usize,
    number: &Linear,
    here: &Symbols,
    side: &Linear,
) -> Result<(), Memory>
    ensures { OnOk result (Relates symbols.old symbols.new one.now left.now other.now right.now count number.now) }
{
    match lone_symbol(side) {
        Some(own) => {
            if own < count {
                return Ok(());
            }
            let branches = here.held_branches();
            relate_branches(
                symbols, one, left, other, right, count, number, branches, own,
            )
        }
        None => Ok(()),
    }
}

// Learns that an expression lies under others: those under which facts of a case show that its number there lies, one after
// another, as far below each as both cases show. So a fee that is the greater of 10 and a hundredth is known to be no more
// than the whole.
fn relate_over(
    symbols: &mut Symbols,
    one: &Symbols,
    left: &Linear,
    other: &Symbols,
    right: &Linear,
    count: usize,
    number: &Linear,
    here: &Symbols,
    side: &Linear,
) -> Result<(), Memory>
    ensures { OnOk result (Relates symbols.old symbols.new one.now left.now other.now right.now count number.now) }
{
    let under = lies_over(symbols, count, side, number)?;
    if under {
        return Ok(());
    }
    let facts = here.held_facts();
    let mut over = side.try_clone()?;
    let mut looked = 0;
    for newer in 0..facts.len() {
        if looked >= MOST_OVER {
            return Ok(());
        }
        let fact = &facts[facts.len() - newer - 1];
        let step = relate_next(
            symbols, one, left, other, right, count, number, here, side, over, fact,
        )?;
        let (next, more) = step;
        over = next;
        looked = more.saturating_add(looked);
    }
    Ok(())
}

// .. that it lies under the next, which a fact shows: from where to go on, and how many were looked at.
fn relate_next(
    symbols: &mut Symbols,
    one: &Symbols,
    left: &Linear,
    other: &Symbols,
    right: &Linear,
    count: usize,
    number: &Linear,
    here: &Symbols,
    side: &Linear,
    over: Linear,
    fact: &Linear,
) -> Result<(Linear, usize), Memory>
    ensures { OnOk result (Relates symbols.old symbols.new one.now left.now other.now right.now count number.now) }
{
    let next = next_over(&over, fact)?;
    match next {
        Some(greater) => relate_to(
            symbols, one, left, other, right, count, number, here, side, over, greater,
        ),
        None => Ok((over, 0)),
    }
}

// .. where both cases show it; the search goes on from it where its own case does.
fn relate_to(
    symbols: &mut Symbols,
    one: &Symbols,
    left: &Linear,
    other: &Symbols,
    right: &Linear,
    count: usize,
    number: &Linear,
    here: &Symbols,
    side: &Linear,
    over: Linear,
    greater: Linear,
) -> Result<(Linear, usize), Memory>
    ensures { OnOk result (Relates symbols.old symbols.new one.now left.now other.now right.now count number.now) }
{
    let is_own = is_at_least(here, &greater, side)?;
    if !is_own {
        return Ok((over, 1));
    }
    let nearest = lowered(one, left, other, right, count, &greater)?;
    relate_under(symbols, one, left, other, right, count, number, nearest)?;
    Ok((greater, 1))
}

// Learns that an expression is at most another, if there is one, where that lies over both.
fn relate_under(
    symbols: &mut Symbols,
    one: &Symbols,
    left: &Linear,
    other: &Symbols,
    right: &Linear,
    count: usize,
    number: &Linear,
    side: Option<Linear>,
) -> Result<(), Memory>
    ensures { OnOk result (Relates symbols.old symbols.new one.now left.now other.now right.now count number.now) }
{
    match side {
        Some(greater) => relate_above(symbols, one, left, other, right, count, number, &greater),
        None => Ok(()),
    }
}

// A new symbol for a number that is one of two.
fn new_number(
    symbols: &mut Symbols,
    one: &Symbols,
    left: &Linear,
    other: &Symbols,
    right: &Linear,
) -> Result<Linear, Memory>
    ensures { IfOk result (λ e. GivesEither symbols.old symbols.new one.now left.now other.now right.now e) }
{
    let count = symbols.count();
    let low = least_of_both(one.least(left), other.least(right));
    let high = greatest_of_both(one.greatest(left), other.greatest(right));
    let (facts, apart) = symbols.counts();
    let e = symbols.fresh(low, high)?;
    relate(symbols, one, left, other, right, count, &e)?;
    relate_inner(symbols, one, left, other, right, count, &e, one, left)?;
    relate_inner(symbols, one, left, other, right, count, &e, other, right)?;
    relate_over(symbols, one, left, other, right, count, &e, one, left)?;
    relate_over(symbols, one, left, other, right, count, &e, other, right)?;
    keep_sides(symbols, one, left, other, right, count, facts, apart, count)?;
    Ok(e)
}

/// The number of one expression in one case or of another in the other, which both come from what is known: the first,
/// where both are the same and over older symbols; a symbol that is shown to have both numbers, by the `MOST_LISTED` newest
/// branches; and else a new symbol, which lies as both cases show that theirs lies, and which is known again where a fact
/// of one case, or whether an expression is 0, tells the cases apart.
pub fn number_of_either(
    symbols: &mut Symbols,
    one: &Symbols,
    left: &Linear,
    other: &Symbols,
    right: &Linear,
) -> Result<Linear, Memory>
    ensures { IfOk result (λ e. GivesEither symbols.old symbols.new one.now left.now other.now right.now e) }
{
    let older = is_below(left.terms(), symbols.count());
    if older {
        let same = cancels(left, right, -1)?;
        if same {
            let e = left.try_clone()?;
            return Ok(e);
        }
    }
    let (learned, _apart) = symbols.counts();
    let known = symbol_of_either(symbols.held_branches(), one, left, other, right, learned)?;
    match known {
        Some(name) => Linear::symbol(left.memory(), name),
        None => new_number(symbols, one, left, other, right),
    }
}
