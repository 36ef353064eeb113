//! What is only handed on. Each function here is generic in what it owns, so that no proof walks through its drop, and who calls it has
//! few ways out.
use crate::fault::RowFault;
use contract::{Items, Memory, TryClone};
use std::alloc::Global;
use std::mem;

/// Both, where both were made.
pub fn both<A: Drop, B: Drop, E: Drop>(a: Result<A, E>, b: Result<B, E>) -> Result<(A, B), E> {
    let a = a?;
    let b = b?;
    Ok((a, b))
}

/// What was made, where all went well with it.
pub fn done<T: Drop, E: Drop>(thing: T, how: Result<(), E>) -> Result<T, E> {
    how?;
    Ok(thing)
}

/// Lends what would else be owned by a function of many ways out.
pub fn lent<T: Drop, U, F: FnOnce(&T) -> U>(thing: T, lend: F) -> U
    requires { F.IsAlwaysCallable lend }
{
    lend(&thing)
}

/// So many items, each made for its place.
pub fn list<T: Drop, F: Fn(u32) -> Result<T, Memory>>(
    alloc: Global,
    count: u32,
    item: &F,
) -> Result<Items<T>, Memory>
    requires { F.IsAlwaysCallable item.now }
{
    let mut items = Items::new(alloc);
    for place in 0..count {
        items.push(item(place)?)?;
    }
    Ok(items)
}

/// A list of one thing.
pub fn one<T: Drop>(alloc: Global, thing: Result<T, Memory>) -> Result<Items<T>, Memory> {
    let mut items = Items::new(alloc);
    items.push(thing?)?;
    Ok(items)
}

/// So many copies of a thing.
pub fn times<T: TryClone + Drop>(
    alloc: Global,
    count: u32,
    thing: Result<T, Memory>,
) -> Result<Items<T>, Memory> {
    let thing = thing?;
    let mut items = Items::new(alloc);
    for _ in 0..count {
        items.push(thing.try_clone()?)?;
    }
    Ok(items)
}

/// Copies of items.
pub fn copies_of<T: TryClone + Drop>(alloc: Global, items: &[T]) -> Result<Items<T>, Memory> {
    let mut copies = Items::new(alloc);
    for item in items {
        copies.push(item.try_clone()?)?;
    }
    Ok(copies)
}

/// Puts words at the end of a line.
pub fn put_words(line: &mut String, words: Result<String, Memory>) -> Result<(), Memory> {
    let words = words?;
    line.push_str(words.as_str())
}

/// Puts what was read behind the others.
pub fn put<T: Drop>(items: &mut Items<T>, item: Result<T, RowFault>) -> Result<(), RowFault> {
    items.push(item?)?;
    Ok(())
}

/// Puts something behind the others, if it is there.
pub fn put_option<T: Drop>(items: &mut Items<T>, item: Option<T>) -> Result<(), RowFault> {
    match item {
        Some(item) => put(items, Ok(item)),
        None => Ok(()),
    }
}

/// Puts something at a place, or behind the others where there is no such place.
pub fn put_at<T: Drop>(
    alloc: Global,
    items: &mut Items<T>,
    place: usize,
    item: T,
) -> Result<(), RowFault> {
    let mut vec = mem::replace(items, Items::new(alloc)).into_vec();
    let place = place.min(vec.len());
    vec.insert(place, item)?;
    *items = Items::from_vec(vec);
    Ok(())
}

/// Puts what was read at the end.
pub fn put_in<T: Drop>(list: &mut Vec<T>, item: Result<T, RowFault>) -> Result<(), RowFault> {
    list.push(item?)?;
    Ok(())
}

/// Puts something in the place of something else.
pub fn replace<T: Drop>(place: &mut T, by: T) {
    *place = by;
}

/// Takes the last of a list back where a row wasn't answered.
pub fn take_back<T: Drop>(list: &mut Vec<T>, told: &Result<String, RowFault>) {
    if told.is_err() {
        drop(list.pop());
    }
}
