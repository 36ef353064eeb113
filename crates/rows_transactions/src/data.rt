//! Data as bytes.
use crate::lines::{in_row, in_two_lines};
use roles::{Cont, Datum, Spell, datum_hash};
use rows_text::{Known, RowFault, datum_of, number, parts};
use std::alloc::{AllocError, Global};

/// The bytes of a datum and its digest, a line for each, from `NUMBER STATE`.
pub fn datum_row(alloc: Global, known: &Known, rest: &str) -> Result<String, RowFault> {
    let (cont, state) = parts(rest)?;
    let datum = datum_of(alloc, known, Cont(number(cont)?), state)?;
    in_row(spelled(alloc, &datum))
}

fn spelled(alloc: Global, datum: &Datum) -> Result<String, AllocError> {
    let mut bytes = Vec::new(alloc);
    datum.put(&mut bytes)?;
    let digest = datum_hash(alloc, datum)?;
    in_two_lines(alloc, bytes.as_slice(), digest.as_slice())
}
