//! The ranges of symbols, in parts that copies share.
ghost use Rattle.std.specs.Prelude.{◌≡◌, ◌+◌, ◌*◌, ◌++◌, ◌∷◌, [], length, IfOk, OnOk, OnErr};
ghost use Rattle.linear.specs.Ranged.{before, AreFull, IsRangeAt, IsRangeOf, ArePut, HoldInBoth, IsHull, AreWithin, PartsWithin, PartsOfHull};

use crate::bounds::{Bounds, UNBOUNDED, greatest_of_both, least_of_both};
use contract::{Memory, TryClone};
use std::alloc::{AllocError, Global};
use std::marker::Model;
use std::rc::Rc;

// How many ranges a part has. A copy of n ranges takes the time of n / 64 owners and at most 64 ranges; a part that is changed
// is copied.
const PART: usize = 64;

// Ranges that stay as they are, with several owners.
#[derive(Drop)]
pub(crate) struct Part {
    ranges: Rc<Vec<Bounds>, Global>,
}

impl Model for Part {
    ghost use Rattle.std.specs.Prelude.{List};
    ghost use Rattle.std.specs.Rc.{rc_value};
    ghost use Rattle.linear.specs.declared.bounds.Bounds.{Bounds};

    ghost Value = { List Bounds };

    ghost view = { λ a. (rc_value a.ranges).items };
}

impl Part {
    fn new(alloc: Global, ranges: Vec<Bounds>) -> Result<Part, Memory>
        ensures { IfOk result (λ p. p ≡ ranges.items) }
    {
        let ranges = Rc::new(alloc, ranges)?;
        Ok(Part { ranges })
    }

    fn as_slice(&self) -> &[Bounds]
        ensures { result.now ≡ self.now }
    {
        &self.ranges
    }

    // Whether it is the very same; that two parts are equal isn't looked at.
    fn is(&self, other: &Part) -> bool {
        Rc::ptr_eq(&self.ranges, &other.ranges)
    }
}

impl TryClone for Part {
    fn try_clone(&self) -> Result<Part, Memory> {
        let ranges = self.ranges.clone()?;
        Ok(Part { ranges })
    }
}

/// The ranges of the symbols below a number, in their order: full parts, and the newest ones, at most 64. Clauses see the list.
pub struct Ranges {
    count: usize,
    parts: Vec<Part>,
    newest: Vec<Bounds>,
}

impl Model for Ranges {
    ghost use Rattle.std.specs.Prelude.{List, length, ◌≡◌};
    ghost use Rattle.linear.specs.declared.bounds.Bounds.{Bounds};
    ghost use Rattle.linear.specs.Ranged.{before, AreFull};

    ghost Value = { List Bounds };

    ghost view = { λ a. before a.parts.items a.newest.items };

    ghost invariant = { λ a. AreFull a.parts.items × (a.count ≡ length (before a.parts.items a.newest.items)) };
}

// Dropped once.
impl Drop for Ranges {
    fn drop(self) {
        let Ranges {
            count: _,
            parts: _,
            newest: _,
        } = self;
    }
}

impl TryClone for Ranges {
    fn try_clone(&self) -> Result<Ranges, Memory> {
        let alloc = self.memory();
        let parts = owned_parts(alloc, &self.parts)?;
        let newest = copied(alloc, &self.newest)?;
        Ok(Ranges {
            count: self.count,
            parts,
            newest,
        })
    }
}

impl Ranges {
    /// No ranges yet, in a list that will take memory from `alloc`.
    pub fn new(alloc: Global) -> Ranges
        ensures { result ≡ [] }
    {
        Ranges {
            count: 0,
            parts: Vec::new(alloc),
            newest: Vec::new(alloc),
        }
    }

    /// Where they take memory from.
    pub fn memory(&self) -> Global {
        *self.newest.allocator()
    }

    /// How many there are.
    pub fn len(&self) -> usize
        ensures { result ≡ length self.now }
    {
        self.count
    }

    /// The range of a symbol; nothing is known of one that isn't there.
    pub fn at(&self, symbol: usize) -> Bounds
        ensures { IsRangeOf self.now symbol result }
    {
        range_in(&self.parts, &self.newest, symbol / PART, symbol % PART)
    }

    // The range at a place of a part.
    fn in_part(&self, place: usize, at: usize) -> Bounds
        ensures { IsRangeOf self.now (64 * place + at) result }
    {
        range_in(&self.parts, &self.newest, place, at)
    }

    /// One range more.
    pub fn push(&mut self, range: Bounds) -> Result<(), Memory>
        ensures { OnOk result (self.new ≡ self.old ++ range ∷ []) }
    {
        match self.count.checked_add(1) {
            None => Err(AllocError),
            Some(count) => {
                put_last(&mut self.parts, &mut self.newest, range)?;
                self.count = count;
                Ok(())
            }
        }
    }

    /// Another range for a symbol, in which it lies as well.
    pub fn put(&mut self, symbol: usize, range: Bounds) -> Result<(), Memory>
        ensures { OnOk result (AreWithin self.old self.new symbol range.least range.greatest) }
    {
        put_in(
            &mut self.parts,
            &mut self.newest,
            symbol / PART,
            symbol % PART,
            range,
        )?;
        Ok(())
    }

    // Whether another list has the same part at a place.
    fn shares(&self, place: usize, other: &Ranges) -> bool {
        place < self.parts.len()
            && place < other.parts.len()
            && self.parts[place].is(&other.parts[place])
    }

    /// The ranges that hold in either of two cases, which both come from these: where one case has the same part, that part.
    pub fn hull(&self, left: &Ranges, right: &Ranges) -> Result<Ranges, Memory>
        ensures { IfOk result (λ out. IsHull left.now right.now self.now out) }
    {
        let mut out = self.try_clone()?;
        for place in 0..self.parts.len() {
            if !self.shares(place, left) && !self.shares(place, right) {
                out.put_hull(place, left, right)?;
            }
        }
        out.put_hull(self.parts.len(), left, right)?;
        Ok(out)
    }

    // The ranges of a part, or the newest, that hold in either of two cases.
    fn put_hull(&mut self, place: usize, left: &Ranges, right: &Ranges) -> Result<(), Memory>
        ensures { OnOk result (IsHull left.now right.now self.old self.new) }
    {
        put_hull_in(&mut self.parts, &mut self.newest, place, left, right)?;
        Ok(())
    }
}

// The range at a place; nothing is known where there is none.
fn range_at(ranges: &[Bounds], at: usize) -> Bounds
    ensures { IsRangeAt ranges.now at result }
{
    if at < ranges.len() {
        ranges[at]
    } else {
        UNBOUNDED
    }
}

// The range at a place of a part.
fn range_in(parts: &[Part], newest: &[Bounds], place: usize, at: usize) -> Bounds
    requires { AreFull parts.now }
    ensures { IsRangeOf (before parts.now newest.now) (64 * place + at) result }
{
    if place < parts.len() {
        return range_at(parts[place].as_slice(), at);
    }
    if place == parts.len() {
        return range_at(newest, at);
    }
    UNBOUNDED
}

// Further owners of parts.
fn owned_parts(alloc: Global, parts: &[Part]) -> Result<Vec<Part>, Memory>
    ensures { IfOk result (λ out. out.items ≡ parts.now) }
{
    let mut out = Vec::with_capacity(alloc, parts.len())?;
    for part in parts {
        out.push(part.try_clone()?)?;
    }
    Ok(out)
}

fn copied(alloc: Global, ranges: &[Bounds]) -> Result<Vec<Bounds>, Memory>
    ensures { IfOk result (λ copy. copy.items ≡ ranges.now) }
{
    let copy = ranges.to_vec(alloc)?;
    Ok(copy)
}

// One range more, behind all others.
fn put_last(parts: &mut Vec<Part>, newest: &mut Vec<Bounds>, range: Bounds) -> Result<(), Memory>
    requires { AreFull parts.old.items }
    ensures full { AreFull parts.new.items }
    ensures added { OnOk result (before parts.new.items newest.new.items ≡ before parts.old.items newest.old.items ++ range ∷ []) }
    ensures unchanged { OnErr result (before parts.new.items newest.new.items ≡ before parts.old.items newest.old.items) }
{
    if newest.len() == PART {
        close(parts, newest)?;
    }
    newest.push(range)?;
    Ok(())
}

// Makes a part of the newest ranges.
fn close(parts: &mut Vec<Part>, newest: &mut Vec<Bounds>) -> Result<(), Memory>
    requires full { AreFull parts.old.items }
    requires long { length newest.old.items ≡ 64 }
    ensures full { AreFull parts.new.items }
    ensures same { before parts.new.items newest.new.items ≡ before parts.old.items newest.old.items }
    ensures empty { OnOk result (newest.new.items ≡ []) }
{
    let alloc = *newest.allocator();
    let ranges = copied(alloc, newest)?;
    let part = Part::new(alloc, ranges)?;
    parts.push(part)?;
    newest.clear();
    Ok(())
}

// Another range at a place, if there is one.
fn put_at(ranges: &mut Vec<Bounds>, at: usize, range: Bounds)
    ensures { ArePut ranges.old.items ranges.new.items at range }
{
    if at < ranges.len() {
        ranges[at] = range;
    }
}

// Another range at a place of a part.
fn put_in(
    parts: &mut Vec<Part>,
    newest: &mut Vec<Bounds>,
    place: usize,
    at: usize,
    range: Bounds,
) -> Result<(), Memory>
    requires { AreFull parts.old.items }
    ensures full { AreFull parts.new.items }
    ensures same { length (before parts.new.items newest.new.items) ≡ length (before parts.old.items newest.old.items) }
    ensures within { OnOk result (PartsWithin parts.old.items newest.old.items parts.new.items newest.new.items (64 * place + at) range) }
{
    if place < parts.len() {
        let alloc = *newest.allocator();
        let mut ranges = copied(alloc, parts[place].as_slice())?;
        put_at(&mut ranges, at, range);
        parts[place] = Part::new(alloc, ranges)?;
    } else if place == parts.len() {
        put_at(newest, at, range);
    }
    Ok(())
}

// So many ranges of a part that hold in either of two cases.
fn hull_of(
    alloc: Global,
    place: usize,
    count: usize,
    left: &Ranges,
    right: &Ranges,
) -> Result<Vec<Bounds>, Memory>
    ensures all { IfOk result (λ out. length out.items ≡ count) }
    ensures either { IfOk result (λ out. HoldInBoth (64 * place) left.now right.now out.items) }
{
    let mut out = Vec::with_capacity(alloc, count)?;
    for at in 0..count {
        let one = left.in_part(place, at);
        let other = right.in_part(place, at);
        let least = least_of_both(one.least, other.least);
        let greatest = greatest_of_both(one.greatest, other.greatest);
        out.push(Bounds { least, greatest })?;
    }
    Ok(out)
}

fn put_hull_in(
    parts: &mut Vec<Part>,
    newest: &mut Vec<Bounds>,
    place: usize,
    left: &Ranges,
    right: &Ranges,
) -> Result<(), Memory>
    requires { AreFull parts.old.items }
    ensures full { AreFull parts.new.items }
    ensures same { length (before parts.new.items newest.new.items) ≡ length (before parts.old.items newest.old.items) }
    ensures either { OnOk result (PartsOfHull left.now right.now parts.old.items newest.old.items parts.new.items newest.new.items) }
{
    let alloc = *newest.allocator();
    if place < parts.len() {
        let ranges = hull_of(alloc, place, PART, left, right)?;
        parts[place] = Part::new(alloc, ranges)?;
    } else if place == parts.len() {
        let ranges = hull_of(alloc, place, newest.len(), left, right)?;
        *newest = ranges;
    }
    Ok(())
}
