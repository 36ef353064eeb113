//! Copies beside what they are of. What owns a copy is generic in it, so that no proof walks through its drop.
use crate::carried::put_words;
use contract::{Items, Memory, Same, TryClone};
use std::alloc::Global;
use std::fmt::Display;

/// The word for two things of which one is a copy, or that stand beside each other.
pub fn same_or_other(same: bool) -> &'static str {
    if same { "same" } else { "other" }
}

/// Puts ` same` at the end where a copy of a thing equals it, else ` other`.
pub fn put_copy<T: TryClone + PartialEq + Drop>(
    line: &mut String,
    thing: &T,
) -> Result<(), Memory> {
    let copy = thing.try_clone()?;
    put_same(line, copy == *thing)
}

/// Puts ` same` at the end where a copy of a thing that has no `==` is the same, else ` other`.
pub fn put_same_copy<T: TryClone + Same + Drop>(
    line: &mut String,
    thing: &T,
) -> Result<(), Memory> {
    let copy = thing.try_clone()?;
    put_same(line, copy.same(thing))
}

/// Puts ` same` or ` other` at the end.
pub fn put_same(line: &mut String, same: bool) -> Result<(), Memory> {
    line.push(' ')?;
    line.push_str(same_or_other(same))
}

/// Puts the word for a copy of each thing at the end, in order.
pub fn put_copies<T: TryClone + PartialEq + Drop>(
    line: &mut String,
    things: &[T],
) -> Result<(), Memory> {
    for thing in things {
        put_copy(line, thing)?;
    }
    Ok(())
}

/// Puts ` beside` and for each thing but the first whether it equals the one before it at the end.
pub fn put_beside<T: PartialEq>(line: &mut String, things: &[T]) -> Result<(), Memory> {
    line.push_str(" beside")?;
    match things.split_first() {
        Some((first, rest)) => put_each_beside(line, first, rest),
        None => Ok(()),
    }
}

// Whether each thing equals the one before it.
fn put_each_beside<T: PartialEq>(line: &mut String, first: &T, rest: &[T]) -> Result<(), Memory> {
    let mut before = first;
    for thing in rest {
        put_same(line, *before == *thing)?;
        before = thing;
    }
    Ok(())
}

/// A line of the text of each fault, behind it `again` where it equals the one before it.
pub fn texts_of<F: Display + PartialEq>(alloc: Global, faults: &[F]) -> Result<String, Memory> {
    let mut lines = String::new(alloc);
    let mut last: Option<&F> = None;
    for fault in faults {
        let is_again = match last {
            Some(before) => *before == *fault,
            None => false,
        };
        let again = if is_again { " again" } else { "" };
        put_words(&mut lines, format!(in alloc; "{fault}{again}\n"))?;
        last = Some(fault);
    }
    lines.pop();
    Ok(lines)
}

/// For each value ` same` where it equals itself, and before it, but at the first, whether it equals the one before it.
pub fn apart_of<T: PartialEq>(alloc: Global, values: &[T]) -> Result<String, Memory> {
    let mut line = String::from_str(alloc, "apart")?;
    let mut last: Option<&T> = None;
    for value in values {
        if let Some(before) = last {
            put_same(&mut line, *before == *value)?;
        }
        put_same(&mut line, *value == *value)?;
        last = Some(value);
    }
    Ok(line)
}

/// Values that are gone through one after another, as the faults of an enum.
pub trait Values<T> {
    /// The one at a place, or behind them the last.
    fn at(alloc: Global, place: u32) -> T;
}

// So many of these values.
fn values_of<T: Drop, V: Values<T>>(alloc: Global, count: u32) -> Result<Items<T>, Memory> {
    let mut values = Items::new(alloc);
    for place in 0..count {
        values.push(V::at(alloc, place))?;
    }
    Ok(values)
}

/// The same texts, of so many of these values.
pub fn value_texts<T: Display + PartialEq + Drop, V: Values<T>>(
    alloc: Global,
    count: u32,
) -> Result<String, Memory> {
    let values = values_of::<T, V>(alloc, count)?;
    texts_of(alloc, values.as_slice())
}

/// Whether so many of these values are told apart.
pub fn values_apart<T: PartialEq + Drop, V: Values<T>>(
    alloc: Global,
    count: u32,
) -> Result<String, Memory> {
    let values = values_of::<T, V>(alloc, count)?;
    apart_of(alloc, values.as_slice())
}

/// The word for a copy of each of so many faults.
pub fn value_copies<T: TryClone + PartialEq + Drop, V: Values<T>>(
    alloc: Global,
    count: u32,
) -> Result<String, Memory> {
    let values = values_of::<T, V>(alloc, count)?;
    let mut line = String::from_str(alloc, "faults")?;
    put_copies(&mut line, values.as_slice())?;
    Ok(line)
}
