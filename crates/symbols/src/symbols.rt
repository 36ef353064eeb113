//! What is known of symbols.
ghost use Rattle.std.specs.Prelude.{◌≡◌, pos, neg_ℤ, ◌≤ℤ◌, IfOk, OnOk, true, false, None, [], length};
ghost use Rattle.linear.specs.Linear.{number_at, symbol};
ghost use Rattle.linear.specs.Bounded.{numbered, IsShown, IsFromAll, IsUpToAll, IsRefuted};
ghost use Rattle.symbols.specs.Joined.{Joins};
ghost use Rattle.symbols.specs.Quotients.{GivesQuotient};
ghost use Rattle.symbols.specs.Results.{IsNamed, GivesResult, GivesInRange, GivesMultiple};
ghost use Rattle.std.specs.Option.{IfSome};
ghost use Rattle.symbols.specs.Branches.{KeepsBranch};
ghost use Rattle.symbols.specs.Within.{IsWithin};
ghost use Rattle.symbols.specs.Cases.{IsNatural, KnowsFact};
ghost use Rattle.symbols.specs.Held.{symbols_of, branches_of, GivesAny, RangesGiveAny, Learns, RangesLearn, Assumes, Distinguishes, IsSharpened, KnowsWithin};

use crate::apart::sharpened;
use crate::branched::{Branched, SharedBranch};
use crate::cases::shows_by_cases;
use crate::join::joined_facts;
use crate::named::Operations;
use crate::newest::{MOST_LISTED, first_since, make_room};
use crate::operations::{found, put_operation};
use crate::parts::product_of_parts;
use crate::products::learn_product;
use crate::quotients::{learn_down, learn_quotient, number_quotient};
use crate::within::{put_range, put_results};
use evaluation::collections::{Items, Memory, TryClone};
use linear::{
    Bounds, Linear, MOST_FACTS, Ranges, follows, follows_newest, greatest_shown, least_shown,
    narrow, narrow_to, negation, product_range, quotient_range, refuted, shown, some_least,
};
use std::alloc::Global;
use std::marker::Model;

// The most symbols of which ranges are compared: 32.
const MOST_COMPARED: usize = 32;

/// What is known of symbols that stand for whole numbers: their ranges, expressions that are at least 0 (facts) or
/// aren't 0, which symbols are products and quotients of what, and which have what number in a branch. Clauses see the
/// definitions' record.
pub struct Symbols {
    pub(crate) bounds: Ranges,
    pub(crate) facts: Items<Linear>,
    pub(crate) apart: Items<Linear>,
    pub(crate) operations: Operations,
    pub(crate) branches: Items<SharedBranch>,
    // how many facts there were in all, and how many expressions that aren't 0
    pub(crate) learned: usize,
    pub(crate) told_apart: usize,
    // how many symbols there were when more was learned last of what they stand for
    pub(crate) changed: usize,
}

// Dropped once.
impl Drop for Symbols {
    fn drop(self) {
        let Symbols {
            bounds: _,
            facts: _,
            apart: _,
            operations: _,
            branches: _,
            learned: _,
            told_apart: _,
            changed: _,
        } = self;
    }
}

impl Model for Symbols {
    ghost use Rattle.symbols.specs.Symbols.{Symbols as Known};
    ghost use Rattle.symbols.specs.Held.{symbols_of, operations_of, branches_of};

    ghost Value = { Known };

    ghost view = { λ a. symbols_of a.bounds a.facts a.apart (operations_of a.operations) (branches_of a.branches) };
}

impl TryClone for Symbols {
    fn try_clone(&self) -> Result<Symbols, Memory> {
        let bounds = self.bounds.try_clone()?;
        let facts = self.facts.try_clone()?;
        let copy = self.copy_with(bounds, facts, self.learned, self.changed)?;
        Ok(copy)
    }
}

impl Symbols {
    /// No symbols yet, in a record that will take memory from `alloc`.
    pub fn new(alloc: Global) -> Symbols
        ensures { result ≡ symbols_of [] [] [] [] [] }
    {
        Symbols {
            bounds: Ranges::new(alloc),
            facts: Items::new(alloc),
            apart: Items::new(alloc),
            operations: Operations::none(alloc),
            branches: Items::new(alloc),
            learned: 0,
            told_apart: 0,
            changed: 0,
        }
    }

    // A copy with other ranges and facts, where there were so many facts in all, and so many symbols when they changed last.
    fn copy_with(
        &self,
        bounds: Ranges,
        facts: Items<Linear>,
        learned: usize,
        changed: usize,
    ) -> Result<Symbols, Memory>
        ensures { IfOk result (λ s. s ≡ symbols_of bounds facts self.now.apart self.now.operations self.now.branches) }
    {
        let apart = self.apart.try_clone()?;
        let operations = self.operations.try_clone()?;
        let branches = self.branches.try_clone()?;
        Ok(Symbols {
            bounds,
            facts,
            apart,
            operations,
            branches,
            learned,
            told_apart: self.told_apart,
            changed,
        })
    }

    /// How many symbols there are: they are the numbers below.
    pub fn count(&self) -> usize
        ensures { result ≡ self.now.next }
    {
        self.bounds.len()
    }

    // The ranges of the symbols in their order.
    fn held_ranges(&self) -> &Ranges
        ensures { numbered 0 result.now ≡ self.now.ranges }
    {
        &self.bounds
    }

    // What is at least 0.
    pub(crate) fn held_facts(&self) -> &[Linear]
        ensures { result.now ≡ self.now.facts }
    {
        self.facts.as_slice()
    }

    // What isn't 0.
    pub(crate) fn held_apart(&self) -> &[Linear]
        ensures { result.now ≡ self.now.apart }
    {
        self.apart.as_slice()
    }

    // How many facts there were in all, those included that are no longer kept; and how many expressions that aren't 0.
    pub(crate) fn counts(&self) -> (usize, usize) {
        (self.learned, self.told_apart)
    }

    // Where the facts start that came after so many.
    pub(crate) fn first_fact_since(&self, learned: usize) -> usize {
        first_since(self.facts.len(), self.learned, learned)
    }

    // Where the expressions that aren't 0 start that came after so many.
    pub(crate) fn first_apart_since(&self, told_apart: usize) -> usize {
        first_since(self.apart.len(), self.told_apart, told_apart)
    }

    // What symbols have which number in a branch.
    pub(crate) fn held_branches(&self) -> &[SharedBranch]
        ensures { branches_of result.now ≡ self.now.branches }
    {
        self.branches.as_slice()
    }

    // Keeps the number that a symbol has where facts are at least 0 and what is apart isn't 0.
    pub(crate) fn keep(
        &mut self,
        facts: Items<Linear>,
        apart: Items<Linear>,
        symbol: usize,
        number: Linear,
    ) -> Result<(), Memory>
        ensures { OnOk result (KeepsBranch self.old self.new facts apart symbol number) }
    {
        make_room(number.memory(), &mut self.branches, MOST_LISTED)?;
        let branch = SharedBranch::new(Branched {
            facts,
            apart,
            symbol,
            number,
        })?;
        self.branches.push(branch)?;
        Ok(())
    }

    /// Whether an expression is shown to be at least 0, by the ranges, by them and one of the newest facts, or by them and
    /// several of these, of which each takes a symbol out. It looks at as many as `MOST_FACTS` says and takes what 6 of them show,
    /// or fewer where they have more than three symbols. Takes no memory.
    pub fn shows(&self, expression: &Linear) -> bool
        ensures { result ≡ true → IsShown self.now.ranges self.now.facts expression.now }
    {
        shown(&self.bounds, self.facts.as_slice(), expression)
    }

    // Whether that is shown by the ranges and by what was learned after so many facts, without a look at each fact alone.
    pub(crate) fn follows_since(&self, learned: usize, expression: &Linear) -> bool
        ensures { result ≡ true → IsShown self.now.ranges self.now.facts expression.now }
    {
        let from = self.first_fact_since(learned);
        follows_newest(&self.bounds, self.facts.as_slice(), from, expression)
    }

    /// Whether an expression that isn't shown so to be at least 0 is in each of several cases: where a symbol of it is one of two
    /// numbers by a comparison that isn't decided. At most two comparisons tell the cases apart.
    pub fn shows_by_cases(&self, expression: &Linear) -> Result<bool, Memory>
        ensures { IfOk result (λ yes. yes ≡ true → IsNatural self.now expression.now) }
    {
        shows_by_cases(self, expression)
    }

    // What is known where a fact is at least 0 as well, by which no range is made narrower.
    pub(crate) fn with_fact(&self, fact: &Linear) -> Result<Symbols, Memory>
        ensures { IfOk result (KnowsFact self.now fact.now) }
    {
        let mut facts = self.facts.try_clone()?;
        let more = fact.try_clone()?;
        facts.push(more)?;
        let bounds = self.bounds.try_clone()?;
        let learned = self.learned.saturating_add(1);
        let copy = self.copy_with(bounds, facts, learned, self.bounds.len())?;
        Ok(copy)
    }

    /// The greatest number that an expression is shown not to be below, if there is one; looks as far as `shows`.
    pub fn least(&self, expression: &Linear) -> Option<i128>
        ensures { IsFromAll self.now.ranges self.now.facts (λ r. number_at r expression.now) result }
    {
        least_shown(&self.bounds, self.facts.as_slice(), expression)
    }

    /// A number that an expression is shown not to be below, where `least` returns one: as the ranges show it, if they do, which
    /// takes no look at facts.
    pub fn some_least(&self, expression: &Linear) -> Option<i128>
        ensures { IsFromAll self.now.ranges self.now.facts (λ r. number_at r expression.now) result }
    {
        some_least(&self.bounds, self.facts.as_slice(), expression)
    }

    /// The least number that an expression is shown not to be above, if there is one; looks as far as `shows`.
    pub fn greatest(&self, expression: &Linear) -> Option<i128>
        ensures { IsUpToAll self.now.ranges self.now.facts (λ r. number_at r expression.now) result }
    {
        greatest_shown(&self.bounds, self.facts.as_slice(), expression)
    }

    /// A new symbol for a number in a range, which is the number of symbols before it. Its expression stands for any
    /// number in the range.
    pub fn fresh(&mut self, least: Option<i128>, greatest: Option<i128>) -> Result<Linear, Memory>
        ensures any { IfOk result (λ e. GivesAny self.old self.new e least greatest) }
        ensures name { IfOk result (λ e. e ≡ symbol self.old.next) }
    {
        let e = put_symbol(&mut self.bounds, least, greatest)?;
        Ok(e)
    }

    /// A new symbol for a number of which nothing is known.
    pub fn unknown(&mut self) -> Result<Linear, Memory>
        ensures any { IfOk result (λ e. GivesAny self.old self.new e None None) }
        ensures name { IfOk result (λ e. e ≡ symbol self.old.next) }
    {
        self.fresh(None, None)
    }

    /// What is known where some symbols lie in a range as well, also of the newest products and quotients of them.
    pub fn within(&self, symbols: &[usize], range: Bounds) -> Result<Symbols, Memory>
        ensures { IfOk result (IsWithin self.now symbols.now range) }
    {
        let mut bounds = self.bounds.try_clone()?;
        put_range(&mut bounds, symbols, range)?;
        put_results(&mut bounds, self.operations.as_slice())?;
        let facts = self.facts.try_clone()?;
        let copy = self.copy_with(bounds, facts, self.learned, self.bounds.len())?;
        Ok(copy)
    }

    /// More is known where an expression is at least 0. It is no fact of its own where it follows from others.
    #[tactic(auto, using(crate::proofs::HeldLemmas::learns_nothing))]
    pub fn learn(&mut self, expression: Linear) -> Result<(), Memory>
        ensures { OnOk result (Learns self.old self.new expression) }
    {
        if follows(&self.bounds, self.facts.as_slice(), &expression) {
            return Ok(());
        }
        put_fact(&mut self.bounds, &mut self.facts, expression)?;
        self.learned = self.learned.saturating_add(1);
        self.changed = self.bounds.len();
        Ok(())
    }

    // More is known where an expression is at least 0, by which no range is made narrower.
    pub(crate) fn put(&mut self, fact: Linear) -> Result<(), Memory>
        ensures { OnOk result (Learns self.old self.new fact) }
    {
        make_room(fact.memory(), &mut self.facts, MOST_FACTS)?;
        self.facts.push(fact)?;
        self.learned = self.learned.saturating_add(1);
        self.changed = self.bounds.len();
        Ok(())
    }

    /// More is known where an expression isn't 0.
    pub fn distinguish(&mut self, expression: Linear) -> Result<(), Memory>
        ensures { OnOk result (Distinguishes self.old self.new expression) }
    {
        make_room(expression.memory(), &mut self.apart, MOST_LISTED)?;
        self.apart.push(expression)?;
        self.told_apart = self.told_apart.saturating_add(1);
        Ok(())
    }

    /// Whether an expression is shown to be below 0; looks as far as `shows`.
    pub fn refutes(&self, expression: &Linear) -> bool
        ensures { result ≡ true → IsRefuted self.now.ranges self.now.facts expression.now }
    {
        refuted(&self.bounds, self.facts.as_slice(), expression)
    }

    // An expression that is at least 0, or what is one less where it isn't 0.
    fn sharp(&self, expression: &Linear) -> Result<Linear, Memory>
        ensures { IfOk result (IsSharpened self.now.apart expression.now) }
    {
        let e = sharpened(self.apart.as_slice(), expression)?;
        Ok(e)
    }

    /// More is known where an expression is at least 0; false where that is shown to be impossible. What isn't 0 is
    /// then above 0.
    pub fn assume(&mut self, expression: &Linear) -> Result<bool, Memory>
        ensures { IfOk result (Assumes self.old self.new expression.now) }
    {
        let sharp = self.sharp(expression)?;
        if self.refutes(&sharp) {
            return Ok(false);
        }
        self.learn(sharp)?;
        Ok(true)
    }

    /// What holds in either of two cases that both come from this: the ranges of its symbols that hold in both, its
    /// facts, and those that the other shows of the newest that one case has learned: 6, or fewer where they have more than three
    /// symbols.
    pub fn join(&self, one: &Symbols, other: &Symbols) -> Result<Symbols, Memory>
        ensures { IfOk result (Joins self.now one.now other.now) }
    {
        let count = self.bounds.len();
        let left = one.held_ranges();
        let right = other.held_ranges();
        let bounds = self.bounds.hull(left, right)?;
        let more = one.held_facts();
        let others = other.held_facts();
        let facts = joined_facts(
            &self.facts,
            count,
            one.first_fact_since(self.learned),
            left,
            more,
            other.first_fact_since(self.learned),
            right,
            others,
        )?;
        let shared = facts.len().saturating_sub(self.facts.len());
        let learned = self.learned.saturating_add(shared);
        let changed = self.changed_by(shared, &bounds);
        let joined = self.copy_with(bounds, facts, learned, changed)?;
        Ok(joined)
    }

    // How many symbols there were when more was learned last, where two cases join to these ranges and so many facts more: as before
    // where they say no more.
    fn changed_by(&self, shared: usize, bounds: &Ranges) -> usize {
        if shared == 0 && self.has_ranges(bounds) {
            self.changed
        } else {
            self.bounds.len()
        }
    }

    // Whether these are the ranges of its symbols, where they are few.
    fn has_ranges(&self, bounds: &Ranges) -> bool {
        let count = self.bounds.len();
        if count > MOST_COMPARED {
            return false;
        }
        for symbol in 0..count {
            if differ(self.bounds.at(symbol), bounds.at(symbol)) {
                return false;
            }
        }
        true
    }

    // The symbol of a product or quotient of two expressions, if one of the newest has one.
    fn known_symbol(
        &self,
        divides: bool,
        first: &Linear,
        second: &Linear,
    ) -> Result<Option<usize>, Memory>
        ensures { IfOk result (λ o. IfSome o (IsNamed self.now.operations divides first.now second.now)) }
    {
        let symbol = found(self.operations.as_slice(), divides, first, second)?;
        Ok(symbol)
    }

    // Makes the range of a symbol narrower.
    fn narrow(&mut self, symbol: usize, range: Bounds) -> Result<(), Memory>
        ensures { OnOk result (KnowsWithin self.old self.new symbol range.least range.greatest) }
    {
        let before = self.bounds.at(symbol);
        narrow_to(&mut self.bounds, symbol, range)?;
        let after = self.bounds.at(symbol);
        self.changed = changed_where(before, after, self.changed, self.bounds.len());
        Ok(())
    }

    // What was learned of a new product counts as nothing, where each factor has one symbol: it holds of any two numbers in the ranges
    // of the factors, so it says no more of older symbols.
    fn pass_over(&mut self, changed: usize, first: &Linear, second: &Linear)
        ensures { self.new ≡ self.old }
    {
        if first.terms().len() == 1 && second.terms().len() == 1 {
            self.changed = changed;
        }
    }

    // The symbol of a product or quotient, which lies in a range: a new one, unless one of the newest is known. What one is
    // known to lie in is then made narrower.
    fn operation(
        &mut self,
        divides: bool,
        first: &Linear,
        second: &Linear,
        range: Bounds,
    ) -> Result<Linear, Memory>
        ensures { IfOk result (λ e. GivesInRange divides range.least range.greatest self.old self.new first.now second.now e) }
    {
        let known = self.known_symbol(divides, first, second)?;
        match known {
            Some(name) => {
                self.narrow(name, range)?;
                Linear::symbol(first.memory(), name)
            }
            None => self.new_operation(divides, first, second, range),
        }
    }

    fn new_operation(
        &mut self,
        divides: bool,
        first: &Linear,
        second: &Linear,
        range: Bounds,
    ) -> Result<Linear, Memory>
        ensures { IfOk result (λ e. GivesInRange divides range.least range.greatest self.old self.new first.now second.now e) }
    {
        let e = put_operation(
            &mut self.bounds,
            &mut self.operations,
            divides,
            first,
            second,
            range,
        )?;
        Ok(e)
    }

    /// A multiple of an expression: itself times the factor, or a new symbol where that leaves 128 bits.
    pub fn multiple(&mut self, expression: &Linear, factor: i128) -> Result<Linear, Memory>
        ensures { IfOk result (λ e. GivesMultiple factor self.old self.new expression.now e) }
    {
        let times = expression.times(factor)?;
        match times {
            Some(e) => Ok(e),
            None => self.unknown(),
        }
    }

    /// The range of an expression.
    pub(crate) fn range_of(&self, expression: &Linear) -> Bounds
        ensures least { IsFromAll self.now.ranges self.now.facts (λ r. number_at r expression.now) result.least }
        ensures greatest { IsUpToAll self.now.ranges self.now.facts (λ r. number_at r expression.now) result.greatest }
    {
        Bounds {
            least: self.least(expression),
            greatest: self.greatest(expression),
        }
    }

    /// The product of two expressions: a multiple where one is a number, and else the sum of the products of their parts, where
    /// these are few: of a percentage and of what is left of 100 the shares come to the whole. The product of two symbols is a
    /// symbol, in the range that the ranges of both give. The same product has the same symbol, where it is among the `MOST_LISTED`
    /// newest.
    pub fn product(&mut self, first: &Linear, second: &Linear) -> Result<Linear, Memory>
        ensures { IfOk result (λ e. GivesResult false self.old self.new first.now second.now e) }
    {
        product_of_parts(self, first, second)
    }

    // .. a multiple where one is a number, and else a symbol.
    pub(crate) fn plain_product(
        &mut self,
        first: &Linear,
        second: &Linear,
    ) -> Result<Linear, Memory>
        ensures { IfOk result (λ e. GivesResult false self.old self.new first.now second.now e) }
    {
        let left = first.is_number();
        if left {
            return self.multiple(second, first.constant());
        }
        let right = second.is_number();
        if right {
            return self.multiple(first, second.constant());
        }
        self.numbered_product(first, second)
    }

    // The symbol of a product: the one that it has, if one of the newest is its, and else a new one.
    pub(crate) fn numbered_product(
        &mut self,
        first: &Linear,
        second: &Linear,
    ) -> Result<Linear, Memory>
        ensures { IfOk result (λ e. GivesResult false self.old self.new first.now second.now e) }
    {
        let known = self.known_symbol(false, first, second)?;
        match known {
            Some(name) => self.known_product(name, first, second),
            None => self.new_product(first, second),
        }
    }

    // .. that has a symbol, whose range is made narrower. Where nothing was learned since the symbol was new, its range is what would
    // be found again.
    fn known_product(
        &mut self,
        name: usize,
        first: &Linear,
        second: &Linear,
    ) -> Result<Linear, Memory>
        requires { IsNamed self.old.operations false first.now second.now name }
        ensures { IfOk result (λ e. GivesResult false self.old self.new first.now second.now e) }
    {
        if name >= self.changed {
            return Linear::symbol(first.memory(), name);
        }
        let x = self.range_of(first);
        let y = self.range_of(second);
        let range = product_range(x, y);
        self.narrow(name, range)?;
        Linear::symbol(first.memory(), name)
    }

    // .. by a new symbol, in the range that the ranges of both give, of which it is known how it lies to multiples of both.
    fn new_product(&mut self, first: &Linear, second: &Linear) -> Result<Linear, Memory>
        ensures { IfOk result (λ e. GivesResult false self.old self.new first.now second.now e) }
    {
        let x = self.range_of(first);
        let y = self.range_of(second);
        let range = product_range(x, y);
        let e = self.new_operation(false, first, second, range)?;
        let changed = self.changed;
        learn_product(self, first, second, &e, x, y)?;
        self.pass_over(changed, first, second);
        Ok(e)
    }

    // The symbol of a quotient, in the range that the ranges of both give.
    fn numbered_quotient(&mut self, dividend: &Linear, divisor: &Linear) -> Result<Linear, Memory>
        ensures { IfOk result (λ e. GivesResult true self.old self.new dividend.now divisor.now e) }
    {
        let x = self.range_of(dividend);
        let y = self.range_of(divisor);
        let range = quotient_range(x, y);
        self.operation(true, dividend, divisor, range)
    }

    // The symbol of a quotient by a number, of which it is known what the division leaves.
    fn quotient_symbol(&mut self, dividend: &Linear, divisor: i128) -> Result<Linear, Memory>
        ensures { IfOk result (λ e. GivesQuotient divisor self.old self.new dividend.now e) }
    {
        let d = Linear::number(dividend.memory(), divisor);
        let e = self.numbered_quotient(dividend, &d)?;
        learn_quotient(self, dividend, &e, divisor)?;
        Ok(e)
    }

    // The quotient by a number: by 1 the dividend, and else a symbol.
    fn quotient_up(&mut self, dividend: &Linear, divisor: i128) -> Result<Linear, Memory>
        ensures { IfOk result (λ e. GivesQuotient divisor self.old self.new dividend.now e) }
    {
        if divisor == 1 {
            let same = dividend.try_clone()?;
            return Ok(same);
        }
        self.quotient_symbol(dividend, divisor)
    }

    // The quotient by the opposite of a number: that by the number, with its sign turned.
    fn turned_quotient(&mut self, dividend: &Linear, opposite: i128) -> Result<Linear, Memory>
        ensures { IfOk result (λ e. GivesQuotient (neg_ℤ opposite) self.old self.new dividend.now e) }
    {
        let up = self.quotient_up(dividend, opposite)?;
        let e = self.multiple(&up, -1)?;
        Ok(e)
    }

    // The quotient by a number below 0.
    fn quotient_down(&mut self, dividend: &Linear, divisor: i128) -> Result<Linear, Memory>
        ensures { IfOk result (λ e. GivesQuotient divisor self.old self.new dividend.now e) }
    {
        match negation(divisor) {
            Some(opposite) => self.turned_quotient(dividend, opposite),
            None => self.quotient_symbol(dividend, divisor),
        }
    }

    // The quotient by a number that isn't 0, where no number is the quotient.
    fn signed_quotient(&mut self, dividend: &Linear, divisor: i128) -> Result<Linear, Memory>
        ensures { IfOk result (λ e. GivesQuotient divisor self.old self.new dividend.now e) }
    {
        if divisor < 0 {
            self.quotient_down(dividend, divisor)
        } else {
            self.quotient_up(dividend, divisor)
        }
    }

    /// The quotient of an expression by a number, truncated toward 0, and 0 where the divisor is 0. By a number above
    /// 1 it is a symbol, of which its range is known, and that what the division leaves is less than the divisor, and
    /// of the sign of the dividend where that is shown. By a number below 0 it is that by its opposite, with its sign
    /// turned.
    pub fn quotient_by(&mut self, dividend: &Linear, divisor: i128) -> Result<Linear, Memory>
        ensures { IfOk result (λ e. GivesQuotient divisor self.old self.new dividend.now e) }
    {
        if divisor == 0 {
            return Ok(Linear::number(dividend.memory(), 0));
        }
        let number = number_quotient(dividend, divisor);
        match number {
            Some(e) => Ok(e),
            None => self.signed_quotient(dividend, divisor),
        }
    }

    // The quotient by an expression: a symbol, which is no more than the dividend where neither is below 0.
    fn quotient_over(&mut self, dividend: &Linear, divisor: &Linear) -> Result<Linear, Memory>
        ensures { IfOk result (λ e. GivesResult true self.old self.new dividend.now divisor.now e) }
    {
        let e = self.numbered_quotient(dividend, divisor)?;
        learn_down(self, dividend, divisor, &e)?;
        Ok(e)
    }

    /// The quotient of two expressions, truncated toward 0, and 0 where the divisor is 0: `quotient_by`, where the
    /// divisor is a number, and else a symbol, in the range that the ranges of both give. The same quotient has the
    /// same symbol, where it is among the `MOST_LISTED` newest operations.
    pub fn quotient(&mut self, dividend: &Linear, divisor: &Linear) -> Result<Linear, Memory>
        ensures { IfOk result (λ e. GivesResult true self.old self.new dividend.now divisor.now e) }
    {
        let number = divisor.is_number();
        if number {
            return self.quotient_by(dividend, divisor.constant());
        }
        self.quotient_over(dividend, divisor)
    }
}

// One number where two ranges are the same, and else another.
fn changed_where(before: Bounds, after: Bounds, same: usize, other: usize) -> usize {
    if differ(before, after) { other } else { same }
}

// Whether two ranges are others.
fn differ(one: Bounds, other: Bounds) -> bool {
    one.least != other.least || one.greatest != other.greatest
}

// A new symbol in a range, behind all others.
fn put_symbol(
    bounds: &mut Ranges,
    least: Option<i128>,
    greatest: Option<i128>,
) -> Result<Linear, Memory>
    ensures any { IfOk result (RangesGiveAny bounds.old bounds.new least greatest) }
    ensures name { IfOk result (λ e. e ≡ symbol (length bounds.old)) }
{
    let symbol = Linear::symbol(bounds.memory(), bounds.len())?;
    bounds.push(Bounds { least, greatest })?;
    Ok(symbol)
}

// One fact more, which makes ranges narrower.
fn put_fact(bounds: &mut Ranges, facts: &mut Items<Linear>, fact: Linear) -> Result<(), Memory>
    ensures { OnOk result (RangesLearn bounds.old facts.old bounds.new facts.new fact) }
{
    narrow(bounds, &fact)?;
    make_room(fact.memory(), facts, MOST_FACTS)?;
    facts.push(fact)?;
    Ok(())
}
