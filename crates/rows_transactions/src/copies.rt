//! Copies of what is written, beside what they are of.
use crate::lines::{in_row, put_all, put_named};
use contract::{Items, Memory, Same, Text, TryClone};
use roles::{Datum, Lock, Resolved, Spend, Tx};
use rows_text::{
    Named, RowFault, amounts_of, data_for_outputs, done, put_copy, put_same, put_same_copy,
    put_words,
};
use std::alloc::{AllocError, Global};

/// Of the transaction, its inputs and its outputs, and of their parts, whether a copy is the same.
pub fn tx_copies(alloc: Global, tx: &Tx) -> Result<String, AllocError> {
    let mut lines = String::from_str(alloc, "transaction")?;
    let put = put_tx(&mut lines, tx);
    done(lines, put)
}

fn put_tx(lines: &mut String, tx: &Tx) -> Result<(), Memory> {
    put_copy(lines, tx)?;
    put_inputs(lines, tx.inputs.as_slice())?;
    put_outputs(lines, tx)?;
    put_all(lines, "\nsigners", tx.signers.as_slice())
}

fn put_inputs(lines: &mut String, inputs: &[Spend]) -> Result<(), Memory> {
    put_all(lines, "\ninputs", inputs)?;
    for input in inputs {
        put_named(lines, "\n reference", &input.reference)?;
        put_named(lines, " redeemer", &input.redeemer)?;
    }
    Ok(())
}

fn put_outputs(lines: &mut String, tx: &Tx) -> Result<(), Memory> {
    let outputs = tx.outputs.as_slice();
    put_all(lines, "\noutputs", outputs)?;
    let mut datums = data_for_outputs(tx).iter();
    for output in outputs {
        put_named(lines, "\n lock", &output.lock)?;
        put_named(lines, " amount", &output.amount)?;
        if output.lock.is_contract() {
            put_datum(lines, datums.next())?;
        }
    }
    Ok(())
}

fn put_datum(lines: &mut String, datum: Option<&Datum>) -> Result<(), Memory> {
    match datum {
        Some(datum) => put_named(lines, " datum", datum),
        None => Ok(()),
    }
}

/// Of a resolution and its scripts, whether a copy is the same. It is generic in the scripts, so that no proof walks through
/// their drop.
pub fn found_copies<V: Same + Drop>(
    alloc: Global,
    found: Result<Resolved<V>, RowFault>,
) -> Result<String, RowFault> {
    let found = found?;
    in_row(found_line(alloc, &found))
}

fn found_line<V: Same + Drop>(alloc: Global, found: &Resolved<V>) -> Result<String, AllocError> {
    let mut line = String::from_str(alloc, "found")?;
    let put = put_found(&mut line, found);
    done(line, put)
}

fn put_found<V: Same + Drop>(line: &mut String, found: &Resolved<V>) -> Result<(), Memory> {
    put_same_copy(line, found)?;
    line.push_str(" scripts")?;
    put_same_copy(line, &found.scripts)
}

/// Of what is published under each name, whether a copy is the same, and the one before it.
pub fn published_copies(alloc: Global, names: &[Named]) -> Result<String, AllocError> {
    let mut line = String::from_str(alloc, "published")?;
    let put = put_published(&mut line, names);
    done(line, put)
}

fn put_published(line: &mut String, names: &[Named]) -> Result<(), Memory> {
    for named in names {
        put_copy(line, named.published())?;
    }
    line.push_str(" beside")?;
    let mut last: Option<&Named> = None;
    for named in names {
        if let Some(before) = last {
            put_same(line, *before.published() == *named.published())?;
        }
        last = Some(named);
    }
    Ok(())
}

/// How many items a copy has, and for how many it asked for room.
pub fn rooms(alloc: Global, tx: &Tx) -> Result<String, AllocError> {
    let mut line = String::from_str(alloc, "rooms")?;
    let put = put_rooms(alloc, &mut line, tx);
    done(line, put)
}

fn put_rooms(alloc: Global, line: &mut String, tx: &Tx) -> Result<(), Memory> {
    put_room(alloc, line, &tx.inputs)?;
    put_room(alloc, line, &tx.outputs)?;
    put_room(alloc, line, &tx.signers)?;
    line.push_str(" texts")?;
    for signer in tx.signers.as_slice() {
        put_text_room(alloc, line, signer)?;
    }
    line.push_str(" bytes")?;
    for output in tx.outputs.as_slice() {
        put_currency_room(alloc, line, &output.lock)?;
    }
    Ok(())
}

/// How many entries a copy of these amounts has, and for how many it asked for room.
pub fn amounts_room(alloc: Global, rest: &str) -> Result<String, RowFault> {
    let copy = amounts_of(alloc, rest)?.try_clone()?.into_vec();
    in_row(format!(in alloc; "room {} of {}", copy.len(), copy.capacity()))
}

fn put_currency_room(alloc: Global, line: &mut String, lock: &Lock) -> Result<(), Memory> {
    match lock {
        Lock::Payout { currency, .. } => {
            let copy = currency.try_clone()?.into_vec();
            put_numbers(alloc, line, copy.len(), copy.capacity())
        }
        _ => Ok(()),
    }
}

fn put_room<T: TryClone + Drop>(
    alloc: Global,
    line: &mut String,
    items: &Items<T>,
) -> Result<(), Memory> {
    let copy = items.try_clone()?.into_vec();
    put_numbers(alloc, line, copy.len(), copy.capacity())
}

fn put_text_room(alloc: Global, line: &mut String, text: &Text) -> Result<(), Memory> {
    let copy = text.try_clone()?.into_string().into_bytes();
    put_numbers(alloc, line, copy.len(), copy.capacity())
}

fn put_numbers(alloc: Global, line: &mut String, count: usize, room: usize) -> Result<(), Memory> {
    put_words(line, format!(in alloc; " {count} of {room}"))
}
