//! Which candidates a run takes, one after another.
use crate::candidates::Candidates;
use crate::work::spend;
use contract::Memory;
use std::alloc::Global;

/// A point where a run had a choice.
#[derive(Clone, Copy)]
pub struct Point {
    // 0 for the candidate that counts as the first, and else one more than the index of the one that was taken.
    taken: usize,
    // How many indices there were.
    count: usize,
}

/// The points where a run had a choice so far, and what it takes at those that were decided before. Beyond these it
/// takes the first.
pub struct Turns<'a> {
    decided: &'a [usize],
    points: Vec<Point>,
    // Whether the second number of a choice counts as its first.
    prefers_second: bool,
}

// Dropped once.
impl<'a> Drop for Turns<'a> {
    fn drop(self) {
        let Turns {
            decided: _,
            points: _,
            prefers_second: _,
        } = self;
    }
}

impl<'a> Turns<'a> {
    /// Before the first point. The first number of a choice counts as its first candidate, or the second, where that is preferred.
    pub fn new(alloc: Global, decided: &'a [usize], prefers_second: bool) -> Turns<'a> {
        Turns {
            decided,
            points: Vec::new(alloc),
            prefers_second,
        }
    }

    /// The interval that is taken, if one is left.
    pub fn interval<C: Candidates>(
        &mut self,
        candidates: &C,
        left: &mut u64,
    ) -> Result<Option<C::Candidate>, Memory> {
        let first = from(candidates, 0, left);
        self.take(candidates, first, left)
    }

    /// The number that is taken, if one is left: the one that counts as the first goes before the others.
    pub fn number<C: Candidates>(
        &mut self,
        candidates: &C,
        left: &mut u64,
    ) -> Result<Option<C::Candidate>, Memory> {
        let mut first = from(candidates, 0, left);
        if self.prefers_second {
            if let Some(index) = first {
                first = from(candidates, index.saturating_add(1), left).or(first);
            }
        }
        self.take(candidates, first, left)
    }

    // The candidate that is taken, where one counts as the first. Others are looked for from an index on.
    fn take<C: Candidates>(
        &mut self,
        candidates: &C,
        first: Option<usize>,
        left: &mut u64,
    ) -> Result<Option<C::Candidate>, Memory> {
        let count = match first {
            Some(_) => candidates.count(),
            None => 0,
        };
        let decided = self.decided.get(self.points.len()).copied().unwrap_or(0);
        let (taken, index) = taken_of(candidates, decided, first, count, left);
        self.points.push(Point { taken, count })?;
        Ok(match index {
            Some(index) => candidates.at(index),
            None => None,
        })
    }

    /// The points that there were, which are no longer kept.
    pub fn take_points(&mut self, alloc: Global) -> Vec<Point> {
        std::mem::replace(&mut self.points, Vec::new(alloc))
    }
}

// What a point notes of the candidate that is taken, and its index, if one is left.
fn taken_of<C: Candidates>(
    candidates: &C,
    decided: usize,
    first: Option<usize>,
    count: usize,
    left: &mut u64,
) -> (usize, Option<usize>) {
    let Some(first) = first else {
        return (0, None);
    };
    if decided == 0 {
        return (0, Some(first));
    }
    match other_from(candidates, decided - 1, first, left) {
        Some(index) => (index.saturating_add(1), Some(index)),
        None => (count, None),
    }
}

// The first index from one on that has a candidate.
fn from<C: Candidates>(candidates: &C, index: usize, left: &mut u64) -> Option<usize> {
    for index in index..candidates.count() {
        if !spend(left, candidates.cost(index)) {
            return None;
        }
        if candidates.at(index).is_some() {
            return Some(index);
        }
    }
    None
}

// The same of another than the first.
fn other_from<C: Candidates>(
    candidates: &C,
    index: usize,
    first: usize,
    left: &mut u64,
) -> Option<usize> {
    let found = from(candidates, index, left)?;
    if found == first {
        from(candidates, found.saturating_add(1), left)
    } else {
        Some(found)
    }
}

/// Goes on to the decisions that come next, of which no more than so many are other than the first: the last point
/// changes first. Tells whether there are any.
pub fn next_turns(decided: &mut Vec<usize>, points: &[Point], most: usize) -> Result<bool, Memory> {
    let mut others = others_of(points);
    for place in (0..points.len()).rev() {
        let Point { taken, count } = points[place];
        if taken > 0 {
            others = others.saturating_sub(1);
        }
        if taken < count && others < most {
            decided.clear();
            for point in &points[..place] {
                decided.push(point.taken)?;
            }
            decided.push(taken.saturating_add(1))?;
            return Ok(true);
        }
    }
    Ok(false)
}

// At how many points another candidate than the first was taken.
fn others_of(points: &[Point]) -> usize {
    let mut others: usize = 0;
    for point in points {
        if point.taken > 0 {
            others = others.saturating_add(1);
        }
    }
    others
}
