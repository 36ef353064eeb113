//! What is shown in each of several cases, which branches tell apart.
ghost use Rattle.std.specs.Prelude.{◌≡◌, true, IfOk};
ghost use Rattle.std.specs.Option.{IfSome};
ghost use Rattle.symbols.specs.Cases.{IsSame, IsReplaced, IsNatural, IsNaturalWhere, AreOpposite};

use crate::branched::Branched;
use crate::branches::is_taken;
use crate::symbols::Symbols;
use evaluation::collections::{Memory, TryClone};
use linear::Linear;

// The most comparisons that tell cases apart, one after another: 2.
const MOST_SPLITS: u32 = 2;

// The most branches, the newest, whose comparisons are looked at: 16.
const MOST_BRANCHES: usize = 16;

// The coefficient of a symbol in an expression, 0 where it isn't there.
fn coefficient_of(expression: &Linear, symbol: usize) -> i128 {
    for term in expression.terms() {
        if term.0 == symbol {
            return term.1;
        }
    }
    0
}

// The branch that comes so many before the newest, if one does.
fn newest_branch(here: &Symbols, before: usize) -> Option<usize> {
    let count = here.held_branches().len();
    if before < count {
        Some(count - before - 1)
    } else {
        None
    }
}

// Whether an expression has a symbol that has a number in one of the newest branches.
fn has_branches(here: &Symbols, expression: &Linear) -> bool {
    let branches = here.held_branches();
    for at in branches.len().saturating_sub(MOST_BRANCHES)..branches.len() {
        if coefficient_of(expression, branches[at].get().symbol) != 0 {
            return true;
        }
    }
    false
}

// An expression with a number in place of a symbol.
fn replaced(
    expression: &Linear,
    symbol: usize,
    number: &Linear,
    coefficient: i128,
) -> Result<Option<Linear>, Memory>
    ensures { IfOk result (λ o. IfSome o (IsReplaced expression.now symbol number.now)) }
{
    let name = Linear::symbol(number.memory(), symbol)?;
    let difference = number.minus(&name)?;
    match difference {
        Some(more) => expression.combine(1, &more, coefficient),
        None => Ok(None),
    }
}

// .. where the branch at a place is taken.
fn settled_at(here: &Symbols, at: usize, expression: &Linear) -> Result<Option<Linear>, Memory>
    ensures { IfOk result (λ o. IfSome o (IsSame here.now expression.now)) }
{
    let branches = here.held_branches();
    if at >= branches.len() {
        return Ok(None);
    }
    let branch = branches[at].get();
    let coefficient = coefficient_of(expression, branch.symbol);
    if coefficient == 0 {
        return Ok(None);
    }
    let taken = is_taken(branch, here, 0, &branch.number)?;
    if !taken {
        return Ok(None);
    }
    replaced(expression, branch.symbol, &branch.number, coefficient)
}

// .. or as it was.
fn settled_there(here: &Symbols, at: usize, expression: Linear) -> Result<Linear, Memory>
    ensures { IfOk result (IsSame here.now expression) }
{
    let next = settled_at(here, at, &expression)?;
    match next {
        Some(e) => Ok(e),
        None => Ok(expression),
    }
}

// .. where the branch that comes so many before the newest is taken, if one comes there.
fn settled_before(here: &Symbols, before: usize, expression: Linear) -> Result<Linear, Memory>
    ensures { IfOk result (IsSame here.now expression) }
{
    match newest_branch(here, before) {
        Some(at) => settled_there(here, at, expression),
        None => Ok(expression),
    }
}

// .. where each of the newest branches is, the newest first: its number is over older symbols.
fn settled(here: &Symbols, expression: &Linear) -> Result<Linear, Memory>
    ensures { IfOk result (IsSame here.now expression.now) }
{
    let mut number = expression.try_clone()?;
    for before in 0..MOST_BRANCHES {
        let next = settled_before(here, before, number)?;
        number = next;
    }
    Ok(number)
}

// Whether one of a branch's facts is shown not to hold.
fn is_ruled_out(here: &Symbols, branch: &Branched) -> bool {
    for fact in branch.facts.as_slice() {
        if here.refutes(fact) {
            return true;
        }
    }
    false
}

// The first of a branch's facts that isn't shown, where none is shown not to hold.
fn undecided_of(here: &Symbols, branch: &Branched) -> Result<Option<Linear>, Memory> {
    if is_ruled_out(here, branch) {
        return Ok(None);
    }
    for fact in branch.facts.as_slice() {
        if !here.shows(fact) {
            let copy = fact.try_clone()?;
            return Ok(Some(copy));
        }
    }
    Ok(None)
}

// A comparison that isn't decided, by which a symbol of an expression has one number or another.
fn undecided(here: &Symbols, expression: &Linear) -> Result<Option<Linear>, Memory> {
    let branches = here.held_branches();
    for at in branches.len().saturating_sub(MOST_BRANCHES)..branches.len() {
        let branch = branches[at].get();
        if coefficient_of(expression, branch.symbol) != 0 {
            let fact = undecided_of(here, branch)?;
            if fact.is_some() {
                return Ok(fact);
            }
        }
    }
    Ok(None)
}

/// Whether an expression is shown to be at least 0 in each of some cases, of which one holds: one of its symbols has one number or
/// another by a comparison that isn't decided. At most two comparisons tell the cases apart.
pub(crate) fn shows_by_cases(here: &Symbols, expression: &Linear) -> Result<bool, Memory>
    ensures { IfOk result (λ yes. yes ≡ true → IsNatural here.now expression.now) }
{
    if has_branches(here, expression) {
        natural_by_cases(here, expression, MOST_SPLITS)
    } else {
        Ok(false)
    }
}

// .. as it is, or by a comparison, and at most so many more.
#[cycle(cases)]
fn natural_by_cases(here: &Symbols, expression: &Linear, steps: u32) -> Result<bool, Memory>
    ensures { IfOk result (λ yes. yes ≡ true → IsNatural here.now expression.now) }
{
    let number = settled(here, expression)?;
    if here.shows(&number) {
        return Ok(true);
    }
    if steps == 0 {
        return Ok(false);
    }
    let rest = steps - 1;
    let fact = undecided(here, &number)?;
    match fact {
        Some(fact) => natural_in_both(here, expression, &fact, rest),
        None => Ok(false),
    }
}

// One less than the opposite of an expression: it is at least 0 where the expression is below.
fn opposite_of(fact: &Linear) -> Result<Option<Linear>, Memory>
    ensures { IfOk result (λ o. IfSome o (AreOpposite fact.now)) }
{
    let one_below = Linear::number(fact.memory(), -1);
    let opposite = one_below.minus(fact)?;
    Ok(opposite)
}

// .. where a fact is at least 0, and where it is below.
#[cycle(cases)]
fn natural_in_both(
    here: &Symbols,
    expression: &Linear,
    fact: &Linear,
    steps: u32,
) -> Result<bool, Memory>
    ensures { IfOk result (λ yes. yes ≡ true → IsNatural here.now expression.now) }
{
    let opposite = opposite_of(fact)?;
    match opposite {
        Some(other) => {
            let first = natural_where(here, expression, fact, steps)?;
            if !first {
                return Ok(false);
            }
            let second = natural_where(here, expression, &other, steps)?;
            Ok(second)
        }
        None => Ok(false),
    }
}

// .. where a fact is at least 0.
#[cycle(cases)]
fn natural_where(
    here: &Symbols,
    expression: &Linear,
    fact: &Linear,
    steps: u32,
) -> Result<bool, Memory>
    ensures { IfOk result (λ yes. yes ≡ true → IsNaturalWhere here.now fact.now expression.now) }
{
    let there = here.with_fact(fact)?;
    natural_by_cases(&there, expression, steps)
}
