//! Dealing items to workers in turn, and gathering what they make of them in the items' order.
ghost use Rattle.std.specs.Prelude.{◌≡◌, ◌<◌, ◌+◌, ◌∷◌, ◌++◌, [], IfOk, OnOk, List, length, option_to_list};
ghost use Rattle.parallel_check.specs.DealingSupport.{IsDealt, AllOk};

use crate::batch::Batch;
use eutxo::Memory;
use std::alloc::Global;

// So many batches with nothing in them, each with room for so many items.
#[tactic(auto, using(crate::proofs::DealingLemmas::one_more_empty))]
fn empty_batches<T: Drop>(alloc: Global, count: usize, room: usize) -> Result<Vec<Batch<T>>, Memory>
    ensures { IfOk result (λ batches. IsDealt count 0 [] batches.items) }
{
    let mut batches = Vec::with_capacity(alloc, count)?;
    for _ in 0..count {
        batches.push(Batch::with_capacity(alloc, room)?)?;
    }
    Ok(batches)
}

// Puts the item at this place behind those of the worker whose turn it is.
#[tactic(auto, using(crate::proofs::DealingLemmas::deal_next))]
fn put_next<T: Drop>(batches: &mut Vec<Batch<T>>, place: usize, item: T) -> Result<(), Memory>
    requires { 0 < length batches.old.items }
    ensures { OnOk result ((xs : List T) → length xs ≡ place
        → IsDealt (length batches.old.items) 0 xs batches.old.items
        → IsDealt (length batches.old.items) 0 (xs ++ item ∷ []) batches.new.items) }
{
    let worker = place % batches.len();
    batches[worker].push(place, item)?;
    Ok(())
}

/// Deals items to so many workers: the one at a place goes to the worker of the place modulo their number.
pub fn deal<T: Drop>(alloc: Global, items: Vec<T>, workers: usize) -> Result<Vec<Batch<T>>, Memory>
    requires { 0 < workers }
    ensures { IfOk result (λ batches. IsDealt workers 0 items.items batches.items) }
{
    let mut batches = empty_batches(alloc, workers, items.len().div_ceil(workers))?;
    let mut place = 0;
    for item in items {
        put_next(&mut batches, place, item)?;
        place += 1;
    }
    Ok(batches)
}

/// What all workers made, or the want of memory that one of them answered.
pub fn all_ok<T: Drop>(
    alloc: Global,
    answers: Vec<Result<Batch<T>, Memory>>,
) -> Result<Vec<Batch<T>>, Memory>
    ensures { IfOk result (λ batches. AllOk answers.items batches.items) }
{
    let mut batches = Vec::with_capacity(alloc, answers.len())?;
    for answer in answers {
        batches.push(answer?)?;
    }
    Ok(batches)
}

// Takes the item at this place, the first that is left to the worker whose turn it is.
fn take_next<T>(batches: &mut Vec<Batch<T>>, place: usize) -> Option<T>
    requires { 0 < length batches.old.items }
    ensures len { length batches.new.items ≡ length batches.old.items }
    ensures next { (x : T) (rest : List T)
        → IsDealt (length batches.old.items) place (x ∷ rest) batches.old.items → result ≡ Some x }
    ensures rest { (x : T) (rest : List T)
        → IsDealt (length batches.old.items) place (x ∷ rest) batches.old.items
        → IsDealt (length batches.old.items) (place + 1) rest batches.new.items }
{
    let from = place % batches.len();
    match batches[from].pop() {
        Some((_, item)) => Some(item),
        None => None,
    }
}

// Puts the item at the end, where there is one.
fn put<T: Drop>(all: &mut Vec<T>, item: Option<T>) -> Result<(), Memory>
    ensures { OnOk result (all.new.items ≡ all.old.items ++ option_to_list item) }
{
    if let Some(item) = item {
        all.push(item)?;
    }
    Ok(())
}

/// Gathers so many items from the workers to whom they were dealt, in their order.
#[tactic(auto, using(crate::proofs::DealingLemmas::gather_step))]
pub fn gather<T: Drop>(
    alloc: Global,
    mut batches: Vec<Batch<T>>,
    count: usize,
) -> Result<Vec<T>, Memory>
    requires { 0 < length batches.items }
    ensures { IfOk result (λ all. (xs : List T) → length xs ≡ count
        → IsDealt (length batches.items) 0 xs batches.items → all.items ≡ xs) }
{
    let mut all = Vec::with_capacity(alloc, count)?;
    for place in 0..count {
        put(&mut all, take_next(&mut batches, place))?;
    }
    Ok(all)
}
