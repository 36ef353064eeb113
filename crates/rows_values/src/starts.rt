//! States that start with accounts.
use crate::forms::text_of;
use crate::sorts::{put_word, text_or_fault};
use contract::{Party, State, StateFault, Token};
use rows_text::{RowFault, both, done, lent, number, parts, put_in, text, token_of};
use std::alloc::{AllocError, Global};

/// The state that starts with the accounts of roles, `ROLE AMOUNT,ROLE AMOUNT..` in ada, or the fault.
pub fn start_row(alloc: Global, rest: &str) -> Result<Vec<u8>, RowFault> {
    let mut rows = Vec::new(alloc);
    let put = put_rows(alloc, &mut rows, rest);
    let rows = done(rows, put)?;
    Ok(lent(rows, |rows| started(alloc, rows.as_slice()))?)
}

fn put_rows(
    alloc: Global,
    rows: &mut Vec<(Party, Token, i128)>,
    rest: &str,
) -> Result<(), RowFault> {
    for piece in rest.split(',') {
        put_in(rows, row_of(alloc, piece))?;
    }
    Ok(())
}

fn row_of(alloc: Global, piece: &str) -> Result<(Party, Token, i128), RowFault> {
    let (name, amount) = parts(piece)?;
    let amount = number(amount)?;
    let (name, token) = both(text(alloc, name), token_of(alloc, "ada"))?;
    Ok((Party::Role(name), token, amount))
}

fn started(alloc: Global, rows: &[(Party, Token, i128)]) -> Result<Vec<u8>, AllocError> {
    match State::start(alloc, rows, 0) {
        Ok(state) => lent(state, |state| text_or_fault(alloc, text_of(alloc, state))),
        Err(StateFault::NotPositive) => put_word(alloc, "NotPositive"),
        Err(StateFault::Repeated) => put_word(alloc, "Repeated"),
        Err(StateFault::Memory) => Err(AllocError),
    }
}
