//! Outputs of a transaction.
use crate::amounts::bundle_of;
use crate::carried::both;
use crate::datums::datum_of;
use crate::fault::RowFault;
use crate::identified::Identified;
use crate::known::Known;
use crate::words::{bytes, first, id, number, parts, text};
use contract::State;
use contract_json::read_state;
use roles::{Cont, Datum, Lock, Output, datum_hash};
use std::alloc::Global;

/// An output as it is written, with the datum that a contract's is written with.
#[derive(Drop)]
pub struct Written {
    pub output: Output,
    pub datum: Option<Datum>,
}

/// An output, from `SORT` and what follows it.
pub fn output_of(alloc: Global, known: &Known, rest: &str) -> Result<Output, RowFault> {
    let Written { output, datum } = written_of(alloc, known, rest)?;
    drop(datum);
    Ok(output)
}

/// An output with its datum, from the same.
pub fn written_of(alloc: Global, known: &Known, rest: &str) -> Result<Written, RowFault> {
    let (sort, rest) = parts(rest)?;
    match sort {
        "key" => without_datum(key(alloc, rest)),
        "payout" => without_datum(payout(alloc, rest)),
        "contract" => contract(alloc, known, rest),
        _ => Err(RowFault::NoSuchRow),
    }
}

fn without_datum(output: Result<Output, RowFault>) -> Result<Written, RowFault> {
    Ok(Written {
        output: output?,
        datum: None,
    })
}

// From `ADDRESS TOKEN AMOUNT ..`.
fn key(alloc: Global, rest: &str) -> Result<Output, RowFault> {
    let (address, amounts) = first(rest);
    let lock = Lock::Key(text(alloc, address)?);
    locked(alloc, lock, amounts)
}

// From `CURRENCY ROLE TOKEN AMOUNT ..`.
fn payout(alloc: Global, rest: &str) -> Result<Output, RowFault> {
    let (currency, rest) = parts(rest)?;
    let (role, amounts) = first(rest);
    let (currency, role) = both(bytes(alloc, currency), text(alloc, role))?;
    locked(alloc, Lock::Payout { currency, role }, amounts)
}

// From `SCRIPT CONTINUATION STATE TOKEN AMOUNT ..`.
fn contract(alloc: Global, known: &Known, rest: &str) -> Result<Written, RowFault> {
    let (script, rest) = parts(rest)?;
    let (cont, rest) = parts(rest)?;
    let (state, amounts) = first(rest);
    let (script, root) = script_of(known, script)?;
    let cont = cont_of(root, cont)?;
    let datum = datum_of(alloc, known, cont, state)?;
    let (output, datum) = both(at_datum(alloc, script, &datum, amounts), Ok(Some(datum)))?;
    Ok(Written { output, datum })
}

fn at_datum(
    alloc: Global,
    script: [u8; 32],
    datum: &Datum,
    amounts: &str,
) -> Result<Output, RowFault> {
    let digest = datum_hash(alloc, datum)?;
    let lock = Lock::Contract {
        script,
        datum: digest,
    };
    locked(alloc, lock, amounts)
}

// The number of a continuation, or the root's.
fn cont_of(root: Cont, word: &str) -> Result<Cont, RowFault> {
    match word {
        "root" => Ok(root),
        _ => Ok(Cont(number(word)?)),
    }
}

// The id of a script and its root, from `@` and the name of what is published, or from an id.
fn script_of(known: &Known, word: &str) -> Result<([u8; 32], Cont), RowFault> {
    match word.strip_prefix('@') {
        Some(name) => {
            let named = known.by_name(name)?;
            Ok((named.id(), named.root()))
        }
        None => Ok((id(word)?, Cont(0))),
    }
}

/// The state that a word stands for: JSON, or `empty` for the state without entries at time 0.
pub fn state_of(alloc: Global, known: &Known, word: &str) -> Result<State, RowFault> {
    match known.text_of(word)? {
        "empty" => Ok(State::new(alloc, 0)),
        word => Ok(read_state(alloc, word.as_bytes())?),
    }
}

/// An output of a lock, from `TOKEN AMOUNT ..`.
pub fn locked(alloc: Global, lock: Lock, amounts: &str) -> Result<Output, RowFault> {
    let (lock, amount) = both(Ok(lock), bundle_of(alloc, amounts))?;
    Ok(Output { lock, amount })
}
