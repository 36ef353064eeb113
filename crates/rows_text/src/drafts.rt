//! Transactions as they are written.
use crate::carried::{put, put_option, replace};
use crate::datums::{bring_for_input, datums_of};
use crate::fault::RowFault;
use crate::known::Known;
use crate::outputs::{Written, written_of};
use crate::spends::{put_keys, spend_of};
use crate::words::{number, parts, text};
use contract::{Interval, Items, TryClone};
use roles::{Spend, Tx};
use std::alloc::Global;

/// A transaction of nothing, from 0 to 0. Takes no memory.
pub fn nothing(alloc: Global) -> Tx {
    Tx {
        inputs: Items::new(alloc),
        outputs: Items::new(alloc),
        interval: Interval { from: 0, to: 0 },
        signers: Items::new(alloc),
        datums: Items::new(alloc),
    }
}

/// Writes a line of a transaction.
pub fn write(
    alloc: Global,
    known: &Known,
    tx: &mut Tx,
    word: &str,
    rest: &str,
) -> Result<(), RowFault> {
    match word {
        "in" => put_spend(alloc, known, tx, spend_of(alloc, known, rest)),
        "keys" => Ok(put_keys(&mut tx.inputs, 0, number(rest)?)?),
        "out" => put_output(tx, written_of(alloc, known, rest)),
        "from" => set_interval(tx, rest),
        "signer" => put(&mut tx.signers, text(alloc, rest)),
        "datums" => {
            let datums = datums_of(alloc, known, rest)?;
            replace(&mut tx.datums, datums);
            Ok(())
        }
        _ => Err(RowFault::NoSuchRow),
    }
}

// Puts an input behind the others, and brings the datum with which a named transaction made what it spends.
fn put_spend(
    alloc: Global,
    known: &Known,
    tx: &mut Tx,
    spend: Result<Spend, RowFault>,
) -> Result<(), RowFault> {
    put(&mut tx.inputs, spend)?;
    match tx.inputs.as_slice().last() {
        Some(last) => match known.datum_at(&last.reference) {
            Some(datum) => bring_for_input(alloc, tx, datum.try_clone()?),
            None => Ok(()),
        },
        None => Ok(()),
    }
}

// Puts an output behind the others, and brings its datum behind the other data.
fn put_output(tx: &mut Tx, written: Result<Written, RowFault>) -> Result<(), RowFault> {
    let Written { output, datum } = written?;
    put_both(&mut tx.outputs, output, &mut tx.datums, datum)
}

// It is generic in what is put, so that no proof walks through its drop.
fn put_both<A: Drop, B: Drop>(
    outputs: &mut Items<A>,
    output: A,
    datums: &mut Items<B>,
    datum: Option<B>,
) -> Result<(), RowFault> {
    put(outputs, Ok(output))?;
    put_option(datums, datum)
}

// From `FROM to TO`.
fn set_interval(tx: &mut Tx, rest: &str) -> Result<(), RowFault> {
    let (from, rest) = parts(rest)?;
    let to = rest.strip_prefix("to ").ok_or(RowFault::NoSuchRow)?;
    tx.interval = Interval {
        from: number(from)?,
        to: number(to)?,
    };
    Ok(())
}
