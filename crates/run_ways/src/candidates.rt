//! What may be tried where a run has a choice.
use crate::ends::Ends;
use crate::written::is_written;
use contract::{Account, Bound, ChoiceId, Interval};

// The most accounts whose amounts are tried, and the most choices whose numbers are.
const MOST_ACCOUNTS: usize = 8;

const MOST_CHOSEN: usize = 8;

/// What may be tried at a point of a run, each by its index. There is no list of it, and an index may have none.
pub trait Candidates {
    type Candidate: Copy;

    /// How many indices there are.
    fn count(&self) -> usize;

    /// The candidate at an index, if it has one.
    fn at(&self, index: usize) -> Option<Self::Candidate>;

    /// The work that it takes to look at an index.
    fn cost(&self, index: usize) -> u64;
}

/// Intervals from one time to another: the moment at either end, all of it, and then the moments between them at
/// numbers of the way.
#[derive(Clone, Copy)]
pub struct Times<'a> {
    pub low: i64,
    pub high: i64,
    pub numbers: &'a [i128],
}

impl Candidates for Times<'_> {
    type Candidate = Interval;

    fn count(&self) -> usize {
        if self.high < self.low {
            0
        } else if self.high == self.low {
            1
        } else {
            self.numbers.len().saturating_add(3)
        }
    }

    fn at(&self, index: usize) -> Option<Interval> {
        match index {
            0 => Some(moment(self.low)),
            1 => Some(moment(self.high)),
            2 => Some(Interval {
                from: self.low,
                to: self.high,
            }),
            _ => self.between(index.saturating_sub(3)),
        }
    }

    fn cost(&self, _index: usize) -> u64 {
        1
    }
}

impl Times<'_> {
    // The moment at a number of the way, if it lies between the two times.
    fn between(&self, index: usize) -> Option<Interval> {
        let number = self.numbers.get(index).copied()?;
        match i64::try_from(number) {
            Ok(time) => {
                if self.low < time && time < self.high {
                    Some(moment(time))
                } else {
                    None
                }
            }
            Err(_) => None,
        }
    }
}

fn moment(time: i64) -> Interval {
    Interval {
        from: time,
        to: time,
    }
}

/// Numbers within bounds that JSON can write: first the ends of those with which the run can go on, as far as these are known;
/// then the ends of each bound, 0, one more than what was chosen before, numbers of the way, and those about what an
/// account holds.
#[derive(Clone, Copy)]
pub struct Numbers<'a> {
    pub ends: Option<Ends>,
    pub bounds: &'a [Bound],
    pub chosen: &'a [(ChoiceId, i128)],
    pub numbers: &'a [i128],
    pub accounts: &'a [(Account, i128)],
}

impl Candidates for Numbers<'_> {
    type Candidate = i128;

    fn count(&self) -> usize {
        let held = self.accounts.len().min(MOST_ACCOUNTS).saturating_mul(3);
        let others = self.before().saturating_add(self.numbers.len());
        let inner = others.saturating_add(held);
        self.outer().saturating_add(inner)
    }

    fn at(&self, index: usize) -> Option<i128> {
        let number = self.number(index)?;
        some_if(is_written(number), number)
    }

    fn cost(&self, index: usize) -> u64 {
        if index < self.outer() {
            1
        } else {
            let looked = self.bounds.len().saturating_add(self.numbers.len());
            1 + looked as u64 / 8
        }
    }
}

impl Numbers<'_> {
    // How many indices the ends have: two of the numbers with which the run can go on, and two of each bound.
    fn outer(&self) -> usize {
        self.bounds.len().saturating_mul(2).saturating_add(2)
    }

    // How many there are for 0 and what was chosen before.
    fn before(&self) -> usize {
        self.chosen.len().min(MOST_CHOSEN).saturating_add(1)
    }

    fn number(&self, index: usize) -> Option<i128> {
        let outer = self.outer();
        if index < outer {
            self.end(index)
        } else {
            self.inner(index.saturating_sub(outer))
        }
    }

    // The end of the numbers with which the run can go on, or of a bound: first where it begins, then where it ends, unless
    // that is the same number.
    fn end(&self, index: usize) -> Option<i128> {
        let first = index % 2 == 0;
        if index < 2 {
            let ends = self.ends?;
            return end_of(ends.least, ends.most, first);
        }
        let bound = self.bounds.get(index.saturating_sub(2) / 2)?;
        let number = end_of(bound.from, bound.to, first)?;
        some_if(!is_known(self.ends, number), number)
    }

    // Another number, if it lies within bounds and is no end.
    fn inner(&self, index: usize) -> Option<i128> {
        let number = self.other(index)?;
        let is_new = lies_inside(self.bounds, number) && !is_known(self.ends, number);
        some_if(is_new, number)
    }

    // 0, one more than what was chosen, a number of the way, or one about an account.
    fn other(&self, index: usize) -> Option<i128> {
        let before = self.before();
        if index < before {
            return self.early(index);
        }
        let index = index.saturating_sub(before);
        match self.numbers.get(index) {
            Some(number) => some_if(*number != 0, *number),
            None => self.about_account(index.saturating_sub(self.numbers.len())),
        }
    }

    // 0, or one more than what was chosen, unless that is a number of the way.
    fn early(&self, index: usize) -> Option<i128> {
        if index == 0 {
            return Some(0);
        }
        let entry = self.chosen.get(index.saturating_sub(1))?;
        let number = entry.1.saturating_add(1);
        some_if(number != 0 && !self.numbers.contains(&number), number)
    }

    // What an account holds, one less or one more, unless it is a number of the way.
    fn about_account(&self, index: usize) -> Option<i128> {
        let entry = self.accounts.get(index / 3)?;
        let number = about(entry.1, index % 3);
        some_if(!self.numbers.contains(&number), number)
    }
}

// Whether a number is an end of those with which the run can go on.
fn is_known(ends: Option<Ends>, number: i128) -> bool {
    match ends {
        Some(ends) => number == ends.least || number == ends.most,
        None => false,
    }
}

fn some_if(holds: bool, number: i128) -> Option<i128> {
    if holds { Some(number) } else { None }
}

// The beginning of a bound, unless it has no number, or its end, unless it has one alone.
fn end_of(from: i128, to: i128, first: bool) -> Option<i128> {
    if first {
        some_if(from <= to, from)
    } else {
        some_if(from < to, to)
    }
}

// An amount, one less or one more.
fn about(amount: i128, which: usize) -> i128 {
    match which {
        0 => amount,
        1 => amount.saturating_sub(1),
        _ => amount.saturating_add(1),
    }
}

// Whether a number lies within bounds and is the end of none.
fn lies_inside(bounds: &[Bound], number: i128) -> bool {
    let mut lies = false;
    for bound in bounds {
        if contains(bound, number) {
            if is_end(bound, number) {
                return false;
            }
            lies = true;
        }
    }
    lies
}

fn contains(bound: &Bound, number: i128) -> bool {
    bound.from <= number && number <= bound.to
}

fn is_end(bound: &Bound, number: i128) -> bool {
    bound.from == number || bound.to == number
}
