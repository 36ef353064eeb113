//! What is kept of a symbol's number in each of two cases, and a symbol that has a number in both.
ghost use Rattle.std.specs.Prelude.{◌≡◌, ◌<◌, ◌++◌, [], ◌∷◌, length, true, IfOk, OnOk};
ghost use Rattle.std.specs.Option.{IfSome};
ghost use Rattle.linear.specs.Linear.{symbol as symbol_alone};
ghost use Rattle.symbols.specs.Symbols.{FactsBelow};
ghost use Rattle.symbols.specs.Held.{branch_of, branches_of};
ghost use Rattle.symbols.specs.Branches.{ShowsAll, RulesOutAll, IsTaken, HasNumber, IsOfEither, IsZeroIn, Excludes, IsOlder, KeepsBranch, KeepsTaken, KeepsWhere, KeepsOwn, KeepsSide, KeepsSides};

use crate::apart::{cancels, is_apart};
use crate::branched::{Branched, SharedBranch};
use crate::newest::first_looked;
use crate::symbols::Symbols;
use evaluation::collections::{Items, Memory, TryClone};
use linear::{Linear, is_below};

// The most facts of a branch that is kept in another, and the most facts of a case that are looked at for one that
// tells it from another: 8.
const MOST_CONDITIONS: usize = 8;

/// The symbol that an expression is, if it is one.
pub(crate) fn lone_symbol(expression: &Linear) -> Option<usize>
    ensures { IfSome result (λ s. expression.now ≡ symbol_alone s) }
{
    let terms = expression.terms();
    let constant = expression.constant();
    if terms.len() == 1 && constant == 0 && terms[0].1 == 1 {
        Some(terms[0].0)
    } else {
        None
    }
}

fn is_symbol(expression: &Linear, symbol: usize) -> bool
    ensures { result ≡ true → expression.now ≡ symbol_alone symbol }
{
    match lone_symbol(expression) {
        Some(name) => name == symbol,
        None => false,
    }
}

// Whether all facts follow in a case: a lone one from the ranges and from what the case has learned after so many facts. Of several
// some may be known to both cases, and so they are asked of all that is known.
fn shows_all(here: &Symbols, learned: usize, facts: &[Linear]) -> bool
    ensures { result ≡ true → ShowsAll here.now facts.now }
{
    let since = if facts.len() > 1 { 0 } else { learned };
    for fact in facts {
        if !here.follows_since(since, fact) {
            return false;
        }
    }
    true
}

// Whether none of some expressions is 0 in a case.
fn rules_out_all(here: &Symbols, apart: &[Linear]) -> Result<bool, Memory>
    ensures { IfOk result (λ yes. yes ≡ true → RulesOutAll here.now apart.now) }
{
    let known = here.held_apart();
    for d in apart {
        let yes = is_apart(known, d)?;
        if !yes {
            return Ok(false);
        }
    }
    Ok(true)
}

/// Whether a branch's number is an expression, and what it asks holds in a case.
pub(crate) fn is_taken(
    branch: &Branched,
    here: &Symbols,
    learned: usize,
    expression: &Linear,
) -> Result<bool, Memory>
    ensures { IfOk result (λ yes. yes ≡ true → IsTaken (branch_of branch.now) here.now expression.now) }
{
    let same = cancels(&branch.number, expression, -1)?;
    if !same {
        return Ok(false);
    }
    let shown = shows_all(here, learned, branch.facts.as_slice());
    if !shown {
        return Ok(false);
    }
    let apart = rules_out_all(here, branch.apart.as_slice())?;
    Ok(apart)
}

// Whether a branch is one of a symbol's, and taken in a case.
fn tells(
    branches: &[SharedBranch],
    at: usize,
    symbol: usize,
    here: &Symbols,
    learned: usize,
    expression: &Linear,
) -> Result<bool, Memory>
    requires { at < length branches.now }
    ensures { IfOk result (λ yes. yes ≡ true → HasNumber (branches_of branches.now) symbol here.now expression.now) }
{
    let branch = branches[at].get();
    if branch.symbol != symbol {
        return Ok(false);
    }
    let taken = is_taken(branch, here, learned, expression)?;
    Ok(taken)
}

// Whether a symbol is shown to have the number of an expression in a case, as it is the symbol or by the branch at a place.
fn has_number_by(
    branches: &[SharedBranch],
    at: usize,
    symbol: usize,
    here: &Symbols,
    learned: usize,
    expression: &Linear,
) -> Result<bool, Memory>
    requires { at < length branches.now }
    ensures { IfOk result (λ yes. yes ≡ true → HasNumber (branches_of branches.now) symbol here.now expression.now) }
{
    let itself = is_symbol(expression, symbol);
    if itself {
        return Ok(true);
    }
    let told = tells(branches, at, symbol, here, learned, expression)?;
    Ok(told)
}

// .. or by any of the newest branches.
fn has_number(
    branches: &[SharedBranch],
    symbol: usize,
    here: &Symbols,
    learned: usize,
    expression: &Linear,
) -> Result<bool, Memory>
    ensures { IfOk result (λ yes. yes ≡ true → HasNumber (branches_of branches.now) symbol here.now expression.now) }
{
    for at in first_looked(branches.len())..branches.len() {
        let yes = has_number_by(branches, at, symbol, here, learned, expression)?;
        if yes {
            return Ok(true);
        }
    }
    Ok(false)
}

// The symbol of a branch, if it is shown to have the numbers of two expressions in two cases.
fn symbol_at(
    branches: &[SharedBranch],
    at: usize,
    one: &Symbols,
    left: &Linear,
    other: &Symbols,
    right: &Linear,
    learned: usize,
) -> Result<Option<usize>, Memory>
    requires { at < length branches.now }
    ensures { IfOk result (λ o. IfSome o (IsOfEither (branches_of branches.now) one.now left.now other.now right.now)) }
{
    let branch = branches[at].get();
    let symbol = branch.symbol;
    let first = has_number_by(branches, at, symbol, one, learned, left)?;
    if !first {
        return Ok(None);
    }
    let second = has_number(branches, symbol, other, learned, right)?;
    if second { Ok(Some(symbol)) } else { Ok(None) }
}

/// A symbol that is shown to have the number of one expression in one case and of another in the other, if one of the newest
/// branches is of one.
pub(crate) fn symbol_of_either(
    branches: &[SharedBranch],
    one: &Symbols,
    left: &Linear,
    other: &Symbols,
    right: &Linear,
    learned: usize,
) -> Result<Option<usize>, Memory>
    ensures { IfOk result (λ o. IfSome o (IsOfEither (branches_of branches.now) one.now left.now other.now right.now)) }
{
    for at in first_looked(branches.len())..branches.len() {
        let symbol = symbol_at(branches, at, one, left, other, right, learned)?;
        if symbol.is_some() {
            return Ok(symbol);
        }
    }
    Ok(None)
}

// What holds in one of two cases: its facts are at least 0, and what is apart isn't 0.
struct Condition {
    facts: Items<Linear>,
    apart: Items<Linear>,
}

// Dropped once.
impl Drop for Condition {
    fn drop(self) {
        let Condition { facts: _, apart: _ } = self;
    }
}

// Whether a fact is over symbols below a count, and a case refutes it.
fn is_refuted(fact: &Linear, away: &Symbols, count: usize) -> bool
    ensures { result ≡ true → Excludes count away.now (fact.now ∷ []) [] }
{
    let older = is_below(fact.terms(), count);
    if older { away.refutes(fact) } else { false }
}

// A fact of a case, from a place on, that another case refutes.
fn by_fact(
    facts: &[Linear],
    from: usize,
    away: &Symbols,
    count: usize,
) -> Result<Option<Condition>, Memory>
    ensures { IfOk result (λ o. IfSome o (λ c. Excludes count away.now c.facts c.apart)) }
{
    for at in from..facts.len() {
        if at > from && at - from >= MOST_CONDITIONS {
            return Ok(None);
        }
        let fact = &facts[at];
        let refuted = is_refuted(fact, away, count);
        if refuted {
            let condition = fact_alone(fact)?;
            return Ok(Some(condition));
        }
    }
    Ok(None)
}

// The condition that a fact is at least 0.
fn fact_alone(fact: &Linear) -> Result<Condition, Memory>
    ensures facts { IfOk result (λ c. c.facts ≡ fact.now ∷ []) }
    ensures apart { IfOk result (λ c. c.apart ≡ []) }
{
    let mut facts = Items::new(fact.memory());
    let copy = fact.try_clone()?;
    facts.push(copy)?;
    Ok(Condition {
        facts,
        apart: Items::new(fact.memory()),
    })
}

// Whether a case shows that an expression is 0.
fn shows_zero(here: &Symbols, expression: &Linear, opposite: &Linear) -> bool
    ensures { result ≡ true → ShowsAll here.now (expression.now ∷ opposite.now ∷ []) }
{
    here.shows(expression) && here.shows(opposite)
}

// An expression that a case, from a place on, knows not to be 0, and that is shown to be 0 in another.
fn by_zero(
    apart: &[Linear],
    from: usize,
    zero: &Symbols,
    count: usize,
) -> Result<Option<(Linear, Linear)>, Memory>
    ensures { IfOk result (λ o. IfSome o (λ p. IsZeroIn count apart.now zero.now p.0 p.1)) }
{
    for at in from..apart.len() {
        if at > from && at - from >= MOST_CONDITIONS {
            return Ok(None);
        }
        let pair = zero_at(apart, at, zero, count)?;
        if pair.is_some() {
            return Ok(pair);
        }
    }
    Ok(None)
}

fn zero_at(
    apart: &[Linear],
    at: usize,
    zero: &Symbols,
    count: usize,
) -> Result<Option<(Linear, Linear)>, Memory>
    requires { at < length apart.now }
    ensures { IfOk result (λ o. IfSome o (λ p. IsZeroIn count apart.now zero.now p.0 p.1)) }
{
    let expression = &apart[at];
    let older = is_below(expression.terms(), count);
    if !older {
        return Ok(None);
    }
    let opposite = expression.times(-1)?;
    match opposite {
        Some(opposite) => {
            let yes = shows_zero(zero, expression, &opposite);
            if yes {
                let copy = expression.try_clone()?;
                Ok(Some((copy, opposite)))
            } else {
                Ok(None)
            }
        }
        None => Ok(None),
    }
}

// What holds in one case and not in another, which both come from where there were so many facts, and so many expressions
// that aren't 0: a fact that the other refutes, that an expression is 0, or that it isn't.
fn tells_apart(
    here: &Symbols,
    away: &Symbols,
    count: usize,
    facts: usize,
    apart: usize,
) -> Result<Option<Condition>, Memory>
    ensures { IfOk result (λ o. IfSome o (λ c. Excludes count away.now c.facts c.apart)) }
{
    let from = here.first_fact_since(facts);
    let fact = by_fact(here.held_facts(), from, away, count)?;
    match fact {
        Some(condition) => Ok(Some(condition)),
        None => by_apart(here, away, count, apart),
    }
}

// .. that an expression is 0, or that it isn't.
fn by_apart(
    here: &Symbols,
    away: &Symbols,
    count: usize,
    apart: usize,
) -> Result<Option<Condition>, Memory>
    ensures { IfOk result (λ o. IfSome o (λ c. Excludes count away.now c.facts c.apart)) }
{
    let equal = by_equal(here, away, count, apart)?;
    match equal {
        Some(condition) => Ok(Some(condition)),
        None => by_unequal(here, away, count, apart),
    }
}

fn by_equal(
    here: &Symbols,
    away: &Symbols,
    count: usize,
    apart: usize,
) -> Result<Option<Condition>, Memory>
    ensures { IfOk result (λ o. IfSome o (λ c. Excludes count away.now c.facts c.apart)) }
{
    let from = away.first_apart_since(apart);
    let zero = by_zero(away.held_apart(), from, here, count)?;
    match zero {
        Some((expression, opposite)) => {
            let both = both_facts(expression, opposite)?;
            Ok(Some(both))
        }
        None => Ok(None),
    }
}

fn by_unequal(
    here: &Symbols,
    away: &Symbols,
    count: usize,
    apart: usize,
) -> Result<Option<Condition>, Memory>
    ensures { IfOk result (λ o. IfSome o (λ c. Excludes count away.now c.facts c.apart)) }
{
    let from = here.first_apart_since(apart);
    let zero = by_zero(here.held_apart(), from, away, count)?;
    match zero {
        Some((expression, _opposite)) => {
            let alone = apart_alone(expression)?;
            Ok(Some(alone))
        }
        None => Ok(None),
    }
}

// The condition that an expression and its opposite are at least 0.
fn both_facts(expression: Linear, opposite: Linear) -> Result<Condition, Memory>
    ensures facts { IfOk result (λ c. c.facts ≡ expression ∷ opposite ∷ []) }
    ensures apart { IfOk result (λ c. c.apart ≡ []) }
{
    let apart = Items::new(expression.memory());
    let mut facts = Items::new(expression.memory());
    facts.push(expression)?;
    facts.push(opposite)?;
    Ok(Condition { facts, apart })
}

// The condition that an expression isn't 0.
fn apart_alone(expression: Linear) -> Result<Condition, Memory>
    ensures facts { IfOk result (λ c. c.facts ≡ []) }
    ensures apart { IfOk result (λ c. c.apart ≡ expression ∷ []) }
{
    let facts = Items::new(expression.memory());
    let mut apart = Items::new(expression.memory());
    apart.push(expression)?;
    Ok(Condition { facts, apart })
}

// Puts expressions behind others.
fn append(list: &mut Items<Linear>, more: &[Linear]) -> Result<(), Memory>
    ensures { OnOk result (list.new ≡ list.old ++ more.now) }
{
    for expression in more {
        let copy = expression.try_clone()?;
        list.push(copy)?;
    }
    Ok(())
}

// Whether all of some expressions are over symbols below a count.
fn are_below(list: &[Linear], count: usize) -> bool
    ensures { result ≡ true → FactsBelow count list.now }
{
    for expression in list {
        if !is_below(expression.terms(), count) {
            return false;
        }
    }
    true
}

// Whether a branch is over symbols below a count, and asks so little that it may be kept in another.
fn is_older(branch: &Branched, count: usize) -> bool
    ensures { result ≡ true → IsOlder count (branch_of branch.now) }
{
    branch.facts.len() < MOST_CONDITIONS
        && branch.apart.len() < MOST_CONDITIONS
        && are_below(branch.facts.as_slice(), count)
        && are_below(branch.apart.as_slice(), count)
        && is_below(branch.number.terms(), count)
}

// Keeps the number of a symbol where a condition holds.
fn keep_own(
    symbols: &mut Symbols,
    condition: &Condition,
    symbol: usize,
    number: &Linear,
) -> Result<(), Memory>
    ensures { OnOk result (KeepsBranch symbols.old symbols.new condition.now.facts condition.now.apart symbol number.now) }
{
    let facts = condition.facts.try_clone()?;
    let apart = condition.apart.try_clone()?;
    let copy = number.try_clone()?;
    symbols.keep(facts, apart, symbol, copy)?;
    Ok(())
}

// Keeps it where a branch is taken as well, which has its number.
fn keep_taken(
    symbols: &mut Symbols,
    condition: &Condition,
    branch: &Branched,
    symbol: usize,
) -> Result<(), Memory>
    ensures { OnOk result (KeepsTaken symbols.old symbols.new condition.now.facts condition.now.apart branch.now symbol) }
{
    let mut facts = condition.facts.try_clone()?;
    append(&mut facts, branch.facts.as_slice())?;
    let mut apart = condition.apart.try_clone()?;
    append(&mut apart, branch.apart.as_slice())?;
    let number = branch.number.try_clone()?;
    symbols.keep(facts, apart, symbol, number)?;
    Ok(())
}

// Keeps the number of a symbol where a branch is taken, if it is one of the symbol that has its number.
fn keep_if_own(
    symbols: &mut Symbols,
    condition: &Condition,
    branches: &[SharedBranch],
    here: &Symbols,
    at: usize,
    own: usize,
    count: usize,
    symbol: usize,
) -> Result<(), Memory>
    requires at { at < length branches.now }
    requires own { branches_of branches.now ≡ here.now.branches }
    ensures { OnOk result (KeepsOwn symbols.old symbols.new here.now own condition.now.facts condition.now.apart count symbol) }
{
    let _here = here;
    let branch = branches[at].get();
    if branch.symbol != own || !is_older(branch, count) {
        return Ok(());
    }
    keep_taken(symbols, condition, branch, symbol)?;
    Ok(())
}

// Keeps the number of a symbol where branches of another symbol are taken, which has its number.
fn keep_inner(
    symbols: &mut Symbols,
    condition: &Condition,
    here: &Symbols,
    own: usize,
    count: usize,
    symbol: usize,
) -> Result<(), Memory>
    ensures { OnOk result (KeepsOwn symbols.old symbols.new here.now own condition.now.facts condition.now.apart count symbol) }
{
    let branches = here.held_branches();
    for at in first_looked(branches.len())..branches.len() {
        keep_if_own(symbols, condition, branches, here, at, own, count, symbol)?;
    }
    Ok(())
}

// Keeps the number that a symbol has in a case, where a condition holds that doesn't in another.
fn keep_number(
    symbols: &mut Symbols,
    condition: &Condition,
    here: &Symbols,
    number: &Linear,
    count: usize,
    symbol: usize,
) -> Result<(), Memory>
    ensures { OnOk result (KeepsWhere symbols.old symbols.new here.now number.now condition.now.facts condition.now.apart count symbol) }
{
    let older = is_below(number.terms(), count);
    if older {
        keep_own(symbols, condition, symbol, number)?;
        return Ok(());
    }
    match lone_symbol(number) {
        Some(own) => keep_inner(symbols, condition, here, own, count, symbol),
        None => Ok(()),
    }
}

// Keeps the number that a symbol has in the first of two cases.
fn keep_side(
    symbols: &mut Symbols,
    here: &Symbols,
    number: &Linear,
    away: &Symbols,
    count: usize,
    facts: usize,
    apart: usize,
    symbol: usize,
) -> Result<(), Memory>
    ensures { OnOk result (KeepsSide symbols.old symbols.new here.now number.now away.now count symbol) }
{
    let found = tells_apart(here, away, count, facts, apart)?;
    match found {
        Some(condition) => keep_number(symbols, &condition, here, number, count, symbol),
        None => Ok(()),
    }
}

/// Keeps the number that a symbol has in each of two cases, which come from where there were so many facts and expressions
/// that aren't 0: where what came then tells the cases apart, and the number is over symbols below a count.
pub(crate) fn keep_sides(
    symbols: &mut Symbols,
    one: &Symbols,
    left: &Linear,
    other: &Symbols,
    right: &Linear,
    count: usize,
    facts: usize,
    apart: usize,
    symbol: usize,
) -> Result<(), Memory>
    ensures { OnOk result (KeepsSides symbols.old symbols.new one.now left.now other.now right.now count symbol) }
{
    keep_side(symbols, one, left, other, count, facts, apart, symbol)?;
    keep_side(symbols, other, right, one, count, facts, apart, symbol)?;
    Ok(())
}
