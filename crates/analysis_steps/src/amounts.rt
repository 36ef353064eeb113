//! Amounts that are moved.
ghost use Rattle.std.specs.Prelude.{◌≡◌, ℤ, pos, ◌+ℤ◌, true, IfOk, OnOk};
ghost use Rattle.std.specs.Int.{int_max};
ghost use Rattle.std.specs.Option.{IfSome};
ghost use Rattle.linear.specs.Linear.{Linear as Expression, IsUpTo};
ghost use Rattle.symbols.specs.Either.{IsAtLeast};
ghost use Rattle.symbols.specs.Cases.{IsNatural};
ghost use Rattle.analysis_steps.specs.Amounts.{IsAbove, IsNothing, LearnsIf, HasAllDue, GivesPaid, GivesAdded, GivesSum, GivesRest, IsFromSum, IsUpToSum};

use analysis_values::Known;
use contract::{Memory, TryClone};
use linear::Linear;

// Whether an expression is shown to be above 0.
pub(crate) fn is_above(known: &Known, l: &Linear) -> bool
    ensures { result ≡ true → IsAbove known.now.symbols l.now }
{
    match known.least(l) {
        Some(bound) => bound > 0,
        None => false,
    }
}

// .. also in each of several cases.
pub(crate) fn is_positive(known: &Known, l: &Linear) -> Result<bool, Memory>
    ensures { IfOk result (λ yes. yes ≡ true → IsAbove known.now.symbols l.now) }
{
    if is_above(known, l) {
        return Ok(true);
    }
    let less = l.raised(-1)?;
    match less {
        Some(e) => known.symbols().shows_by_cases(&e),
        None => Ok(false),
    }
}

// Whether an expression is shown to be at least 0, as one that is above 0 is.
#[tactic(auto, using(crate::proofs::AmountLemmas::natural_of, crate::proofs::AmountLemmas::natural_shown))]
pub(crate) fn is_natural(known: &Known, l: &Linear, above: bool) -> bool
    requires { above ≡ true → IsAbove known.now.symbols l.now }
    ensures { result ≡ true → IsNatural known.now.symbols l.now }
{
    if above { true } else { known.shows(l) }
}

// Whether an expression is shown to be at least another, also in each of several cases.
pub(crate) fn is_covered(known: &Known, l: &Linear, m: &Linear) -> Result<bool, Memory>
    ensures { IfOk result (λ yes. yes ≡ true → IsAtLeast known.now.symbols l.now m.now) }
{
    let difference = l.minus(m)?;
    match difference {
        Some(d) => {
            if known.shows(&d) {
                Ok(true)
            } else {
                known.symbols().shows_by_cases(&d)
            }
        }
        None => Ok(false),
    }
}

// Whether an expression is shown to be at least another.
pub(crate) fn is_at_least(known: &Known, l: &Linear, m: &Linear) -> Result<bool, Memory>
    ensures { IfOk result (λ yes. yes ≡ true → IsAtLeast known.now.symbols l.now m.now) }
{
    let difference = l.minus(m)?;
    match difference {
        Some(d) => Ok(known.shows(&d)),
        None => Ok(false),
    }
}

// Learns that an expression is at most another, if that is asked.
pub(crate) fn learn_if(known: &mut Known, asked: bool, l: &Linear, m: &Linear) -> Result<(), Memory>
    ensures symbols { OnOk result (LearnsIf asked known.old.symbols known.new.symbols l.now m.now) }
    ensures view { known.new.view ≡ known.old.view }
{
    if !asked {
        return Ok(());
    }
    let difference = m.minus(l)?;
    match difference {
        Some(d) => known.learn(d),
        None => Ok(()),
    }
}

// Whether an expression is shown to be at most 0.
fn is_nothing(known: &Known, l: &Linear) -> bool
    ensures { result ≡ true → IsNothing known.now.symbols l.now }
{
    match known.greatest(l) {
        Some(bound) => bound <= 0,
        None => false,
    }
}

// What is paid where that may be less than is due: nothing where 0 or less is due, all that the account has where no less is due,
// and else a new symbol.
fn part(known: &mut Known, balance: &Linear, due: &Linear) -> Result<Linear, Memory>
    ensures symbols { IfOk result (λ e. GivesPaid known.old.symbols known.new.symbols balance.now due.now e) }
    ensures view { known.new.view ≡ known.old.view }
{
    if is_nothing(known, due) {
        return Ok(Linear::number(due.memory(), 0));
    }
    let all = is_at_least(known, due, balance)?;
    if all {
        let same = balance.try_clone()?;
        return Ok(same);
    }
    new_part(known, balance, due)
}

// What is paid where nothing says how much: a new symbol.
fn new_part(known: &mut Known, balance: &Linear, due: &Linear) -> Result<Linear, Memory>
    ensures symbols { IfOk result (λ e. GivesPaid known.old.symbols known.new.symbols balance.now due.now e) }
    ensures view { known.new.view ≡ known.old.view }
{
    let natural = known.shows(due);
    let most = known.greatest(balance);
    let paid = known.fresh(Some(0), most)?;
    learn_if(known, true, &paid, balance)?;
    learn_if(known, natural, &paid, due)?;
    Ok(paid)
}

// What is paid: all that is due, where that isn't below 0 and the account is shown to have it.
pub(crate) fn paid(
    known: &mut Known,
    balance: &Linear,
    due: &Linear,
    whole: bool,
) -> Result<Linear, Memory>
    requires { whole ≡ true → HasAllDue known.old.symbols balance.now due.now }
    ensures symbols { IfOk result (λ e. GivesPaid known.old.symbols known.new.symbols balance.now due.now e) }
    ensures view { known.new.view ≡ known.old.view }
{
    if whole {
        let same = due.try_clone()?;
        return Ok(same);
    }
    part(known, balance, due)
}

// A bound of the greater of 0 and a number.
fn natural_bound(bound: Option<i128>) -> Option<i128>
    ensures { (n : ℤ) → IsUpTo bound n → IsUpTo result (int_max (pos 0) n) }
{
    match bound {
        Some(b) => { if b > 0 { Some(b) } else { Some(0) } }
        None => None,
    }
}

// What a deposit adds where that may be 0: nothing where 0 or less is due, and else a new symbol.
fn part_added(known: &mut Known, due: &Linear) -> Result<Linear, Memory>
    ensures symbols { IfOk result (λ e. GivesAdded known.old.symbols known.new.symbols due.now e) }
    ensures view { known.new.view ≡ known.old.view }
{
    if is_nothing(known, due) {
        return Ok(Linear::number(due.memory(), 0));
    }
    new_added(known, due)
}

// What a deposit adds where nothing says how much: a new symbol.
fn new_added(known: &mut Known, due: &Linear) -> Result<Linear, Memory>
    ensures symbols { IfOk result (λ e. GivesAdded known.old.symbols known.new.symbols due.now e) }
    ensures view { known.new.view ≡ known.old.view }
{
    let most = natural_bound(known.greatest(due));
    let added = known.fresh(Some(0), most)?;
    learn_if(known, true, due, &added)?;
    Ok(added)
}

// What a deposit adds: all that is due, where that is shown to be at least 0.
pub(crate) fn added(known: &mut Known, due: &Linear, natural: bool) -> Result<Linear, Memory>
    requires { natural ≡ true → IsNatural known.old.symbols due.now }
    ensures symbols { IfOk result (λ e. GivesAdded known.old.symbols known.new.symbols due.now e) }
    ensures view { known.new.view ≡ known.old.view }
{
    if natural {
        let same = due.try_clone()?;
        return Ok(same);
    }
    part_added(known, due)
}

// The sum of two numbers, where it has 128 bits.
fn checked_sum(x: i128, y: i128) -> Option<i128>
    ensures { IfSome result (λ n. n ≡ x +ℤ y) }
{
    x.checked_add(y)
}

// The sum of two bounds, where both are there and it has 128 bits.
pub(crate) fn sum_of_bounds(a: Option<i128>, b: Option<i128>) -> Option<i128>
    ensures least { IsFromSum a b result }
    ensures greatest { IsUpToSum a b result }
{
    let x = a?;
    let y = b?;
    checked_sum(x, y)
}

// The sum of two expressions.
pub(crate) fn sum(known: &mut Known, l: &Linear, m: &Linear) -> Result<Linear, Memory>
    ensures symbols { IfOk result (λ e. GivesSum known.old.symbols known.new.symbols l.now m.now e) }
    ensures view { known.new.view ≡ known.old.view }
{
    let sum = l.plus(m)?;
    match sum {
        Some(e) => Ok(e),
        None => ranged_sum(known, l, m),
    }
}

// A new symbol for a sum.
fn ranged_sum(known: &mut Known, l: &Linear, m: &Linear) -> Result<Linear, Memory>
    ensures symbols { IfOk result (λ e. GivesSum known.old.symbols known.new.symbols l.now m.now e) }
    ensures view { known.new.view ≡ known.old.view }
{
    let least = sum_of_bounds(known.least(l), known.least(m));
    let greatest = sum_of_bounds(known.greatest(l), known.greatest(m));
    known.fresh(least, greatest)
}

// What is left of an amount where a part of it is taken.
pub(crate) fn rest(known: &mut Known, l: &Linear, m: &Linear) -> Result<Linear, Memory>
    ensures symbols { IfOk result (λ e. GivesRest known.old.symbols known.new.symbols l.now m.now e) }
    ensures view { known.new.view ≡ known.old.view }
{
    let rest = l.minus(m)?;
    match rest {
        Some(e) => Ok(e),
        None => ranged_rest(known, l),
    }
}

// A new symbol for what is left of an amount.
fn ranged_rest(known: &mut Known, l: &Linear) -> Result<Linear, Memory>
    ensures symbols { IfOk result (λ e. (part : Expression) → GivesRest known.old.symbols known.new.symbols l.now part e) }
    ensures view { known.new.view ≡ known.old.view }
{
    let greatest = known.greatest(l);
    known.fresh(Some(0), greatest)
}
