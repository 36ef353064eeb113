//! The data that a transaction brings, as its lines are written: those for inputs before those for outputs.
ghost use Rattle.std.specs.Prelude.{◌≤◌, length};

use crate::carried::{copies_of, done, put, put_at, replace};
use crate::fault::RowFault;
use crate::known::Known;
use crate::outputs::state_of;
use crate::words::number;
use contract::Items;
use roles::{Cont, Datum, Output, Tx};
use std::alloc::Global;

/// A datum, from the number of a continuation and a state.
pub fn datum_of(alloc: Global, known: &Known, cont: Cont, state: &str) -> Result<Datum, RowFault> {
    let state = state_of(alloc, known, state)?;
    Ok(Datum { cont, state })
}

/// Data, from `NUMBER STATE ..`.
pub fn datums_of(alloc: Global, known: &Known, words: &str) -> Result<Items<Datum>, RowFault> {
    let mut datums = Items::new(alloc);
    let put = put_datums(alloc, known, &mut datums, words);
    done(datums, put)
}

fn put_datums(
    alloc: Global,
    known: &Known,
    datums: &mut Items<Datum>,
    words: &str,
) -> Result<(), RowFault> {
    let mut words = words.split_whitespace();
    while let Some(cont) = words.next() {
        let cont = Cont(number(cont)?);
        let state = words.next().unwrap_or("");
        put(datums, datum_of(alloc, known, cont, state))?;
    }
    Ok(())
}

/// Brings a datum for an input, behind those for the inputs before it.
pub fn bring_for_input(alloc: Global, tx: &mut Tx, datum: Datum) -> Result<(), RowFault> {
    let place = for_inputs(tx);
    put_at(alloc, &mut tx.datums, place, datum)
}

/// Brings for the inputs nothing any more.
pub fn bring_for_outputs(alloc: Global, tx: &mut Tx) -> Result<(), RowFault> {
    let datums = copies_of(alloc, data_for_outputs(tx))?;
    replace(&mut tx.datums, datums);
    Ok(())
}

/// The data that are brought for outputs: as many as there are contract outputs, or all, where there are fewer.
pub fn data_for_outputs(tx: &Tx) -> &[Datum] {
    &tx.datums.as_slice()[for_inputs(tx)..]
}

// How many of the data are for inputs: there is one for each contract output behind them.
fn for_inputs(tx: &Tx) -> usize
    ensures { result ≤ length tx.now.datums }
{
    tx.datums
        .len()
        .saturating_sub(contracts_among(tx.outputs.as_slice()))
}

// How many of these outputs are contracts.
fn contracts_among(outputs: &[Output]) -> usize {
    let mut count = 0usize;
    for output in outputs {
        if output.lock.is_contract() {
            count = count.saturating_add(1);
        }
    }
    count
}
