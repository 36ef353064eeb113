//! Terms: symbols with their coefficients, the newest symbol first.
ghost use Rattle.std.specs.Prelude.{◌≡◌, ℕ, ◌≤◌, ◌+ℤ◌, ◌*ℤ◌, [], length, drop, IfOk, true};
ghost use Rattle.std.specs.Option.{IfSome, MatchOption};
ghost use Rattle.linear.specs.Linear.{TermsBelow};
ghost use Rattle.linear.specs.WalkSupport.{IsTaken, IsStep, IsPut, NothingLeft, IsNext, AreCombined};

use crate::checked::{product, sum};
use contract::{Memory, TryClone};
use std::alloc::Global;
use std::marker::Model;
use std::rc::Rc;

/// A symbol and its coefficient.
pub type Term = (usize, i128);

/// The most symbols of an expression: 32. Where a sum would have more there is no sum, which bounds the time
/// and the memory of each step; the expressions of real contracts have a few.
pub const MOST_SYMBOLS: usize = 32;

// A list of terms of its own, or one that copies share.
#[derive(Drop)]
enum Home {
    Own(Vec<Term>),
    Shared(Rc<Vec<Term>, Global>),
}

/// The terms of an expression, which copies share where there are any. Clauses see the list.
pub(crate) struct Terms {
    home: Home,
}

// Dropped once.
impl Drop for Terms {
    fn drop(self) {
        let Terms { home: _ } = self;
    }
}

impl Model for Terms {
    ghost use Rattle.std.specs.Prelude.{List, ℕ, ℤ};
    ghost use Rattle.std.specs.Rc.{rc_value};
    ghost use Rattle.linear.specs.declared.terms.Home.TheVariants.{Own, Shared};

    ghost Value = { List (ℕ × ℤ) };

    ghost view = { λ t. elim t.home [ Own own ↦ own.items | Shared shared ↦ (rc_value shared).items ] };
}

impl TryClone for Terms {
    fn try_clone(&self) -> Result<Terms, Memory> {
        match &self.home {
            Home::Own(own) => {
                let copy = own.to_vec(*own.allocator())?;
                Ok(Terms {
                    home: Home::Own(copy),
                })
            }
            Home::Shared(shared) => {
                let owner = shared.clone()?;
                Ok(Terms {
                    home: Home::Shared(owner),
                })
            }
        }
    }
}

impl Terms {
    /// No terms, in a list that will take memory from `alloc`.
    pub(crate) fn none(alloc: Global) -> Terms
        ensures { result ≡ [] }
    {
        Terms {
            home: Home::Own(Vec::new(alloc)),
        }
    }

    /// The terms of a list.
    pub(crate) fn new(terms: Vec<Term>) -> Result<Terms, Memory>
        ensures { IfOk result (λ t. t ≡ terms.items) }
    {
        let home = if terms.is_empty() {
            Home::Own(terms)
        } else {
            let alloc = *terms.allocator();
            Home::Shared(Rc::new(alloc, terms)?)
        };
        Ok(Terms { home })
    }

    /// Where they take memory from.
    pub(crate) fn memory(&self) -> Global {
        match &self.home {
            Home::Own(own) => *own.allocator(),
            Home::Shared(shared) => *shared.allocator(),
        }
    }

    /// The terms in their order.
    pub(crate) fn as_slice(&self) -> &[Term]
        ensures { result.now ≡ self.now }
    {
        match &self.home {
            Home::Own(own) => own,
            Home::Shared(shared) => shared,
        }
    }
}

/// Whether all symbols are below a number.
pub fn is_below(terms: &[Term], count: usize) -> bool
    ensures { result ≡ true → TermsBelow count terms.now }
{
    for term in terms {
        if term.0 >= count {
            return false;
        }
    }
    true
}

// The newest symbol of what is left of two lists of terms; none where nothing is left.
pub(crate) fn next_symbol(
    left: &[Term],
    left_at: usize,
    right: &[Term],
    right_at: usize,
) -> Option<usize>
    ensures { MatchOption result (NothingLeft left.now left_at right.now right_at) (IsNext left.now left_at right.now right_at) }
{
    if left_at < left.len() {
        if right_at < right.len() && left[left_at].0 < right[right_at].0 {
            Some(right[right_at].0)
        } else {
            Some(left[left_at].0)
        }
    } else if right_at < right.len() {
        Some(right[right_at].0)
    } else {
        None
    }
}

// The coefficient of a term.
pub(crate) fn number_of(term: &Term) -> i128
    ensures { result ≡ term.now.1 }
{
    term.1
}

// A multiple of the coefficient of a symbol, 0 where the symbol doesn't come next, and where what is left begins.
fn taken(factor: i128, terms: &[Term], at: usize, symbol: usize) -> Option<(i128, usize)>
    requires { at ≤ length terms.now }
    ensures { IfSome result (IsTaken factor terms.now at symbol) }
{
    if at < terms.len() && terms[at].0 == symbol {
        let coefficient = product(factor, number_of(&terms[at]))?;
        Some((coefficient, at + 1))
    } else {
        Some((0, at))
    }
}

// A symbol's coefficient in a multiple of what is left of some terms and one of what is left of others, and where what
// is left of each begins then.
pub(crate) fn step(
    factor: i128,
    left: &[Term],
    left_at: usize,
    other_factor: i128,
    right: &[Term],
    right_at: usize,
    symbol: usize,
) -> Option<(i128, usize, usize)>
    requires left { left_at ≤ length left.now }
    requires right { right_at ≤ length right.now }
    ensures { IfSome result (IsStep factor left.now left_at other_factor right.now right_at symbol) }
{
    let (a, k) = taken(factor, left, left_at, symbol)?;
    let (b, l) = taken(other_factor, right, right_at, symbol)?;
    let coefficient = sum(a, b)?;
    Some((coefficient, k, l))
}

// Puts a symbol behind others, unless its coefficient is 0; false where there are too many.
fn put(terms: &mut Vec<Term>, symbol: usize, coefficient: i128) -> Result<bool, Memory>
    requires { length terms.old.items ≤ 32 }
    ensures { IfOk result (λ done. done ≡ true → IsPut terms.old.items terms.new.items symbol coefficient) }
{
    if coefficient == 0 {
        return Ok(true);
    }
    if terms.len() >= MOST_SYMBOLS {
        return Ok(false);
    }
    terms.push((symbol, coefficient))?;
    Ok(true)
}

/// The terms of a multiple of some and one of others, added; none where a coefficient leaves 128 bits or there are too many.
pub(crate) fn combined(
    alloc: Global,
    factor: i128,
    left: &[Term],
    other_factor: i128,
    right: &[Term],
) -> Result<Option<Vec<Term>>, Memory>
    ensures { IfOk result (λ o. IfSome o (λ out. AreCombined factor left.now other_factor right.now out.items)) }
{
    let mut out = Vec::new(alloc);
    let mut i = 0;
    let mut j = 0;
    for _ in 0..2 * MOST_SYMBOLS + 1 {
        match next_symbol(left, i, right, j) {
            None => return Ok(Some(out)),
            Some(symbol) => match step(factor, left, i, other_factor, right, j, symbol) {
                None => return Ok(None),
                Some((coefficient, k, l)) => {
                    if !put(&mut out, symbol, coefficient)? {
                        return Ok(None);
                    }
                    i = k;
                    j = l;
                }
            },
        }
    }
    Ok(None)
}
