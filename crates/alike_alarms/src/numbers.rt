//! A number of each part at which an alarm stands. Equal parts have equal numbers, and different parts mostly not. Nothing is
//! promised of them: they tell which alarms are worth a comparison. A part without an alarm at it, above it or below it is
//! passed over.
use crate::seen::Seen;
use analysis_spec::PathStep;
use contract::{Boxed, Case, Contract, Items, Memory};
use std::alloc::Global;
use std::hash::{DefaultHasher, Hash, Hasher};

/// An alarm as it stands among others: those of one kind at parts of one number side by side, those with a run first, and then
/// in their order.
#[derive(Clone, Copy, PartialEq, Eq, PartialOrd, Ord)]
pub(crate) struct Entry {
    pub(crate) number: u64,
    pub(crate) kind: u8,
    pub(crate) lacks_run: bool,
    pub(crate) index: usize,
    /// How many parts lie in its part, itself too.
    pub(crate) parts: usize,
}

// The alarm that is looked for next, how many steps of its place lead to where the walk is, and how many parts were passed.
#[derive(Drop)]
struct Walk<'a> {
    seen: &'a [Seen<'a>],
    next: usize,
    matched: usize,
    parts: usize,
}

/// An entry for each alarm, of those that stand in the order of the contract.
pub(crate) fn entries_of(
    alloc: Global,
    contract: &Contract,
    seen: &[Seen<'_>],
) -> Result<Vec<Entry>, Memory> {
    let mut entries = Vec::new(alloc);
    let mut walk = Walk {
        seen,
        next: 0,
        matched: 0,
        parts: 0,
    };
    let _number = number_of(contract, 0, false, &mut walk, &mut entries)?;
    Ok(entries)
}

// The number of a part to which so many steps lead, where that is wanted as an alarm stands at it or above it; and an entry for
// each alarm in it.
#[cycle(number_of)]
fn number_of(
    contract: &Contract,
    depth: usize,
    wanted: bool,
    walk: &mut Walk<'_>,
    entries: &mut Vec<Entry>,
) -> Result<u64, Memory> {
    let before = walk.parts;
    walk.parts = before.saturating_add(1);
    let from = walk.next;
    pass(walk, depth);
    let to = walk.next;
    let wanted = wanted || to > from;
    if !wanted && !is_on_way(walk, depth) {
        return Ok(0);
    }
    let number = number_of_form(contract, depth, wanted, walk, entries)?;
    let parts = walk.parts.saturating_sub(before);
    put_entries(walk.seen, from, to, number, parts, entries)?;
    Ok(number)
}

#[cycle(number_of)]
fn number_of_form(
    contract: &Contract,
    depth: usize,
    wanted: bool,
    walk: &mut Walk<'_>,
    entries: &mut Vec<Entry>,
) -> Result<u64, Memory> {
    match contract {
        Contract::Close => Ok(1),
        Contract::Pay(account, payee, token, value, then) => {
            let payer = mixed(own(wanted, account), own(wanted, token));
            let paid = mixed(own(wanted, payee), own(wanted, value));
            let first = mixed(2, mixed(payer, paid));
            number_then(first, PathStep::Then, then, depth, wanted, walk, entries)
        }
        Contract::If(observation, then, otherwise) => {
            let first = mixed(3, own(wanted, observation));
            let second = number_then(first, PathStep::Then, then, depth, wanted, walk, entries)?;
            number_then(
                second,
                PathStep::Else,
                otherwise,
                depth,
                wanted,
                walk,
                entries,
            )
        }
        Contract::When(cases, timeout, then) => {
            let first = mixed(4, own(wanted, timeout));
            let second = number_of_cases(first, cases, depth, wanted, walk, entries)?;
            number_then(
                second,
                PathStep::TimeoutContinuation,
                then,
                depth,
                wanted,
                walk,
                entries,
            )
        }
        Contract::Let(name, value, then) => {
            let first = mixed(5, mixed(own(wanted, name), own(wanted, value)));
            number_then(first, PathStep::Then, then, depth, wanted, walk, entries)
        }
        Contract::Assert(observation, then) => {
            let first = mixed(6, own(wanted, observation));
            number_then(first, PathStep::Then, then, depth, wanted, walk, entries)
        }
    }
}

// A number mixed with that of the part behind a step.
#[cycle(number_of)]
fn number_then(
    first: u64,
    step: PathStep,
    part: &Boxed<Contract>,
    depth: usize,
    wanted: bool,
    walk: &mut Walk<'_>,
    entries: &mut Vec<Entry>,
) -> Result<u64, Memory> {
    enter(walk, depth, step);
    let number = number_of(part.get(), depth.saturating_add(1), wanted, walk, entries)?;
    leave(walk, depth);
    Ok(mixed(first, number))
}

#[cycle(number_of)]
fn number_of_cases(
    first: u64,
    cases: &Items<Case>,
    depth: usize,
    wanted: bool,
    walk: &mut Walk<'_>,
    entries: &mut Vec<Entry>,
) -> Result<u64, Memory> {
    let mut number = first;
    let mut index = 0usize;
    for case in cases.as_slice() {
        let one = number_of_case(case, index, depth, wanted, walk, entries)?;
        number = mixed(number, one);
        index = index.saturating_add(1);
    }
    Ok(number)
}

#[cycle(number_of)]
fn number_of_case(
    case: &Case,
    index: usize,
    depth: usize,
    wanted: bool,
    walk: &mut Walk<'_>,
    entries: &mut Vec<Entry>,
) -> Result<u64, Memory> {
    let before = walk.parts;
    enter(walk, depth, PathStep::Action(index));
    let from = walk.next;
    pass(walk, depth.saturating_add(1));
    let to = walk.next;
    leave(walk, depth);
    let wanted = wanted || to > from;
    enter(walk, depth, PathStep::Case(index));
    let then = number_of(&case.then, depth.saturating_add(1), wanted, walk, entries)?;
    leave(walk, depth);
    let number = mixed(own(wanted, &case.action), then);
    let parts = walk.parts.saturating_sub(before);
    put_entries(walk.seen, from, to, number, parts, entries)?;
    Ok(number)
}

// Goes a step on: one more step of the next alarm's place leads there, if it is the next one.
fn enter(walk: &mut Walk<'_>, depth: usize, step: PathStep) {
    if walk.matched == depth && step_at(walk.seen, walk.next, depth) == Some(step) {
        walk.matched = depth.saturating_add(1);
    }
}

// Goes back to a part to which so many steps lead.
fn leave(walk: &mut Walk<'_>, depth: usize) {
    walk.matched = walk.matched.min(depth);
}

// Passes the alarms at a place, to which so many steps lead.
fn pass(walk: &mut Walk<'_>, depth: usize) {
    for _ in walk.next..walk.seen.len() {
        if !is_here(walk, depth) {
            return;
        }
        let matched = shared_steps(walk.seen, walk.next);
        walk.next = walk.next.saturating_add(1);
        walk.matched = matched;
    }
}

// Whether the place of the next alarm lies in a part to which so many steps lead.
fn is_on_way(walk: &Walk<'_>, depth: usize) -> bool {
    walk.matched == depth && walk.next < walk.seen.len()
}

fn is_here(walk: &Walk<'_>, depth: usize) -> bool {
    match walk.seen.get(walk.next) {
        Some(next) => walk.matched == depth && next.alarm.place.len() == depth,
        None => false,
    }
}

fn step_at(seen: &[Seen<'_>], index: usize, depth: usize) -> Option<PathStep> {
    match seen.get(index) {
        Some(next) => next.alarm.place.as_slice().get(depth).copied(),
        None => None,
    }
}

// With how many steps the places of an alarm and of the next one begin alike.
fn shared_steps(seen: &[Seen<'_>], index: usize) -> usize {
    match seen.get(index) {
        Some(one) => match seen.get(index.saturating_add(1)) {
            Some(other) => shared(one.alarm.place.as_slice(), other.alarm.place.as_slice()),
            None => 0,
        },
        None => 0,
    }
}

fn shared(one: &[PathStep], other: &[PathStep]) -> usize {
    let mut count = 0usize;
    for step in one {
        if other.get(count).copied() != Some(*step) {
            return count;
        }
        count = count.saturating_add(1);
    }
    count
}

// An entry for each alarm from an index up to another.
fn put_entries(
    seen: &[Seen<'_>],
    from: usize,
    to: usize,
    number: u64,
    parts: usize,
    entries: &mut Vec<Entry>,
) -> Result<(), Memory> {
    for index in from..to {
        if let Some(one) = seen.get(index) {
            entries.push(Entry {
                number,
                kind: one.alarm.kind as u8,
                lacks_run: !one.has_run,
                index,
                parts,
            })?;
        }
    }
    Ok(())
}

// The number of what stands at a part itself, where it is wanted.
fn own<T: Hash>(wanted: bool, it: &T) -> u64 {
    if !wanted {
        return 0;
    }
    let mut state = DefaultHasher::new();
    it.hash(&mut state);
    state.finish()
}

fn mixed(a: u64, b: u64) -> u64 {
    a.wrapping_add(0x9e37_79b9_7f4a_7c15)
        .wrapping_mul(0xbf58_476d_1ce4_e5b9)
        .wrapping_add(b)
        .wrapping_mul(0x94d0_49bb_1331_11eb)
}
