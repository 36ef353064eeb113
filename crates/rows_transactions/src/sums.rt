//! Sums and differences of bundles.
use crate::lines::in_row;
use contract::{Memory, Token, TryClone};
use roles::{Bundle, BundleFault, holds_sums, total_of};
use rows_text::{
    Known, RowFault, both, bundle_of, done, first, parts, put_amounts, same_or_other, sides,
    state_of, times, token_of, word_of,
};
use std::alloc::{AllocError, Global};

/// Adds, from `AMOUNTS / AMOUNTS`: the line for the answer, and what is in the first bundle afterwards.
pub fn added(alloc: Global, rest: &str) -> Result<String, RowFault> {
    let (mut held, more) = two_bundles(alloc, rest)?;
    let answer = held.add(&more);
    in_row(line_of(alloc, answer, &held))
}

/// Subtracts, from `AMOUNTS / AMOUNTS`: the line for the answer, and what is in the first bundle afterwards.
pub fn subtracted(alloc: Global, rest: &str) -> Result<String, RowFault> {
    let (mut held, less) = two_bundles(alloc, rest)?;
    let answer = held.subtract(&less);
    in_row(line_of(alloc, answer, &held))
}

/// Whether amounts are the sums of the accounts of a state, from `STATE TOKEN AMOUNT ..`.
pub fn are_sums(alloc: Global, known: &Known, rest: &str) -> Result<String, RowFault> {
    let (state, amounts) = first(rest);
    let (state, amount) = both(state_of(alloc, known, state), bundle_of(alloc, amounts))?;
    same_line(alloc, holds_sums(alloc, &amount, &state))
}

/// Whether the sums of a token over two lists of amounts are the same, from `TOKEN AMOUNTS / AMOUNTS`: the first list has the amounts
/// twice, the second once.
pub fn totals(alloc: Global, rest: &str) -> Result<String, RowFault> {
    let (token, rest) = parts(rest)?;
    let (token, (held, other)) = both(token_of(alloc, token), two_bundles(alloc, rest))?;
    same_line(alloc, are_same(alloc, &token, &held, &other))
}

fn are_same(alloc: Global, token: &Token, held: &Bundle, other: &Bundle) -> Result<bool, Memory> {
    let twice = times(alloc, 2, held.try_clone())?;
    let once = std::slice::from_ref(other);
    Ok(total_of(twice.as_slice(), token) == total_of(once, token))
}

fn same_line(alloc: Global, same: Result<bool, Memory>) -> Result<String, RowFault> {
    Ok(String::from_str(alloc, same_or_other(same?))?)
}

fn two_bundles(alloc: Global, rest: &str) -> Result<(Bundle, Bundle), RowFault> {
    let (held, other) = sides(rest, '/')?;
    both(bundle_of(alloc, held), bundle_of(alloc, other))
}

fn line_of(
    alloc: Global,
    answer: Result<(), BundleFault>,
    held: &Bundle,
) -> Result<String, AllocError> {
    let mut line = answer_line(alloc, answer)?;
    let put = put_held(alloc, &mut line, held);
    done(line, put)
}

fn put_held(alloc: Global, line: &mut String, held: &Bundle) -> Result<(), AllocError> {
    line.push(':')?;
    put_amounts(alloc, line, held)
}

// `done`, or the fault with its token.
fn answer_line(alloc: Global, answer: Result<(), BundleFault>) -> Result<String, AllocError> {
    match answer {
        Ok(()) => String::from_str(alloc, "done"),
        Err(BundleFault::Short(token)) => {
            let word = word_of(alloc, &token)?;
            format!(in alloc; "Short {word}")
        }
        Err(BundleFault::TooLarge) => String::from_str(alloc, "TooLarge"),
        Err(BundleFault::Memory) => String::from_str(alloc, "Memory"),
    }
}
