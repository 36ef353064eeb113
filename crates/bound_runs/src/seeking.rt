//! The search for runs that reach bounds.
//!
//! Nothing of it has to be believed: what it finds is played again.
use crate::closes::Closes;
use analysis_spec::{PaidRange, PathStep};
use contract::{Contract, Items, Memory, State, Transaction, TryClone};
use counter_runs::ClosingRuns;
use losses::Loss;
use reached_bounds::{Played, loses, pays, play};
use std::alloc::Global;

// The most bounds for which runs are looked for.
const MOST_BOUNDS: usize = 64;

// The most points of a run at which it takes another candidate than the first.
const MOST_OTHERS: usize = 2;

// What it takes to compare a run with bounds: so much for each, and a unit more for so many payments and inputs.
const BOUND: u64 = 2;

const ITEMS: u64 = 4;

// A bound for which a run is looked for.
enum Bound<'a> {
    Least(&'a PaidRange),
    Most(&'a PaidRange),
    Down(&'a Loss),
}

// Dropped once.
impl<'a> Drop for Bound<'a> {
    fn drop(self) {
        match self {
            Bound::Least(_) | Bound::Most(_) | Bound::Down(_) => {}
        }
    }
}

// One, and the run that was found, if it was. A bound of 0 wants none.
#[derive(Drop)]
struct Sought<'a> {
    bound: Bound<'a>,
    wants: bool,
    run: Option<Items<Transaction>>,
}

/// Runs that were found, one for each bound: of each range for its least and its most, and then of each loss.
#[derive(Drop)]
pub(crate) struct Found {
    // The last first.
    runs: Vec<Option<Items<Transaction>>>,
}

impl Found {
    /// The run for the next bound, if one was found.
    pub(crate) fn next(&mut self) -> Option<Items<Transaction>> {
        match self.runs.pop() {
            Some(run) => run,
            None => None,
        }
    }
}

/// Looks for runs from a state that reach bounds, by no more than so much work in all.
pub(crate) fn seek(
    alloc: Global,
    contract: &Contract,
    state: &State,
    ranges: &[PaidRange],
    losses: &[Loss],
    work: u64,
) -> Result<Found, Memory> {
    let sought = sought_of(alloc, ranges, losses)?;
    let open = count_open(sought.as_slice());
    let mut search = Search {
        alloc,
        contract,
        state,
        sought,
        open,
        closes: 1,
        left: work,
    };
    search.run()?;
    let Search { sought, .. } = search;
    found_of(alloc, sought)
}

fn found_of(alloc: Global, sought: Vec<Sought<'_>>) -> Result<Found, Memory> {
    let mut runs = Vec::new(alloc);
    for one in sought.into_iter().rev() {
        let Sought {
            bound: _,
            wants: _,
            run,
        } = one;
        runs.push(run)?;
    }
    Ok(Found { runs })
}

// The bounds of ranges and losses, the first of them.
fn sought_of<'a>(
    alloc: Global,
    ranges: &'a [PaidRange],
    losses: &'a [Loss],
) -> Result<Vec<Sought<'a>>, Memory> {
    let mut sought = Vec::new(alloc);
    for range in ranges.iter().take(MOST_BOUNDS) {
        put(&mut sought, Bound::Least(range), range.least)?;
        put(&mut sought, Bound::Most(range), range.most)?;
    }
    if ranges.len() <= MOST_BOUNDS {
        for loss in losses.iter().take(MOST_BOUNDS) {
            put(&mut sought, Bound::Down(loss), loss.most)?;
        }
    }
    Ok(sought)
}

fn put<'a>(
    sought: &mut Vec<Sought<'a>>,
    bound: Bound<'a>,
    number: Option<i128>,
) -> Result<(), Memory> {
    let wants = match number {
        Some(number) => number != 0,
        None => false,
    };
    sought.push(Sought {
        bound,
        wants,
        run: None,
    })?;
    Ok(())
}

fn count_open(sought: &[Sought<'_>]) -> usize {
    let mut open: usize = 0;
    for one in sought {
        if one.wants {
            open = open.saturating_add(1);
        }
    }
    open
}

// A search on its way: how many bounds have no run yet, how many places of Close the contract has, as far as they were
// counted, and the work that is left.
#[derive(Drop)]
struct Search<'a> {
    alloc: Global,
    contract: &'a Contract,
    state: &'a State,
    sought: Vec<Sought<'a>>,
    open: usize,
    closes: u64,
    left: u64,
}

impl<'a> Search<'a> {
    // Looks for runs with one candidate after another.
    fn run(&mut self) -> Result<(), Memory> {
        for others in 0..=MOST_OTHERS {
            self.run_with(others, false)?;
            self.run_with(others, true)?;
        }
        Ok(())
    }

    // .. at each place at which the contract is closed.
    fn run_with(&mut self, others: usize, prefers_second: bool) -> Result<(), Memory> {
        let mut places = Closes::new(self.alloc, self.contract)?;
        let mut count: u64 = 0;
        let most = self.left;
        for _ in 0..most {
            if self.open == 0 || !places.next(&mut self.left)? {
                break;
            }
            let share = if others == 0 {
                self.left
            } else {
                self.left / self.closes.saturating_sub(count).max(1)
            };
            let mut work = share;
            self.run_to(places.place(), others, prefers_second, &mut work)?;
            self.left = self.left.saturating_sub(share.saturating_sub(work));
            count = count.saturating_add(1);
        }
        self.closes = count;
        Ok(())
    }

    // .. at this place.
    fn run_to(
        &mut self,
        place: &[PathStep],
        others: usize,
        prefers_second: bool,
        work: &mut u64,
    ) -> Result<(), Memory> {
        let alloc = self.alloc;
        let contract = self.contract;
        let state = self.state;
        let mut runs = ClosingRuns::new(
            alloc,
            contract,
            state,
            place,
            others,
            prefers_second,
            work,
        )?;
        let most = *work;
        for _ in 0..most {
            if self.open == 0 {
                return Ok(());
            }
            match runs.next(alloc, contract, state, place, work)? {
                Some(run) => self.note(&run, work)?,
                None => return Ok(()),
            }
        }
        Ok(())
    }

    // Notes a run for each bound that it reaches first.
    fn note(&mut self, run: &Items<Transaction>, work: &mut u64) -> Result<(), Memory> {
        let Some(it) = play(self.alloc, self.contract, self.state, run.as_slice())? else {
            return Ok(());
        };
        let found = note_each(self.sought.as_mut_slice(), &it, run, work)?;
        self.open = self.open.saturating_sub(found);
        Ok(())
    }
}

// Notes it so, and returns for how many bounds.
fn note_each(
    sought: &mut [Sought<'_>],
    it: &Played,
    run: &Items<Transaction>,
    work: &mut u64,
) -> Result<usize, Memory> {
    let items = run.len().saturating_add(it.payments.len()) as u64 / ITEMS;
    let mut found: usize = 0;
    for index in 0..sought.len() {
        if sought[index].wants && sought[index].run.is_none() {
            *work = work.saturating_sub(items.saturating_add(BOUND));
            if is_reached(&sought[index].bound, it, run.as_slice()) {
                let copy = run.try_clone()?;
                sought[index].run = Some(copy);
                found = found.saturating_add(1);
            }
        }
    }
    Ok(found)
}

// Whether a run that was played reaches a bound.
fn is_reached(bound: &Bound<'_>, it: &Played, run: &[Transaction]) -> bool {
    match bound {
        Bound::Least(range) => it.is_spent && pays(it, range, range.least),
        Bound::Most(range) => pays(it, range, range.most),
        Bound::Down(loss) => it.is_spent && loses(it, loss, run),
    }
}
