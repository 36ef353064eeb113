//! The sorts of values that are read from a text at once.
use crate::forms::text_of;
use crate::scenarios::reading;
use crate::sorts::{named, no_such_sort, text_or_fault};
use contract::{Contract, Input, State};
use json_read_scenarios::read_scenario;
use marlowe_run::{
    JsonFault, Transaction, WriteFault, read_contract, read_input, read_state, read_transaction,
    write_contract,
};
use rows_text::{RowFault, same_or_other};
use std::alloc::{AllocError, Global};

/// A sort of values that is read from a text, and written as one.
trait Text: PartialEq + Sized + Drop {
    fn read(alloc: Global, text: &[u8]) -> Result<Self, JsonFault>;

    fn write(&self, alloc: Global) -> Result<Vec<u8>, WriteFault>;
}

/// What is written for the value of a sort that is read from a text; or `back`, what comes of reading that again.
pub fn text_row(alloc: Global, sort: &str, text: &[u8], back: bool) -> Result<Vec<u8>, RowFault> {
    let told = match sort {
        "contract" => told::<Contract>(alloc, text, back),
        "input" => told::<Input>(alloc, text, back),
        "transaction" => told::<Transaction>(alloc, text, back),
        "state" => told::<State>(alloc, text, back),
        "scenario" => return reading(alloc, read_scenario(alloc, text)),
        _ => no_such_sort(alloc),
    };
    Ok(told?)
}

fn told<T: Text>(alloc: Global, text: &[u8], back: bool) -> Result<Vec<u8>, AllocError> {
    match T::read(alloc, text) {
        Ok(thing) if back => returning(alloc, &thing),
        Ok(thing) => text_or_fault(alloc, thing.write(alloc)),
        Err(fault) => named(alloc, fault),
    }
}

fn returning<T: Text>(alloc: Global, thing: &T) -> Result<Vec<u8>, AllocError> {
    match thing.write(alloc) {
        Ok(written) => returned(alloc, thing, written.as_slice()),
        Err(fault) => text_or_fault(alloc, Err(fault)),
    }
}

// Whether a text stands for a thing, and how many bytes it has.
fn returned<T: Text>(alloc: Global, thing: &T, text: &[u8]) -> Result<Vec<u8>, AllocError> {
    match T::read(alloc, text) {
        Ok(again) => {
            let same = same_or_other(again == *thing);
            let told = format!(in alloc; "{same} in {} bytes", text.len())?;
            Ok(told.into_bytes())
        }
        Err(fault) => named(alloc, fault),
    }
}

impl Text for Contract {
    fn read(alloc: Global, text: &[u8]) -> Result<Contract, JsonFault> {
        read_contract(alloc, text)
    }

    fn write(&self, alloc: Global) -> Result<Vec<u8>, WriteFault> {
        write_contract(alloc, self)
    }
}

impl Text for Input {
    fn read(alloc: Global, text: &[u8]) -> Result<Input, JsonFault> {
        read_input(alloc, text)
    }

    fn write(&self, alloc: Global) -> Result<Vec<u8>, WriteFault> {
        text_of(alloc, self)
    }
}

impl Text for Transaction {
    fn read(alloc: Global, text: &[u8]) -> Result<Transaction, JsonFault> {
        read_transaction(alloc, text)
    }

    fn write(&self, alloc: Global) -> Result<Vec<u8>, WriteFault> {
        text_of(alloc, self)
    }
}

impl Text for State {
    fn read(alloc: Global, text: &[u8]) -> Result<State, JsonFault> {
        read_state(alloc, text)
    }

    fn write(&self, alloc: Global) -> Result<Vec<u8>, WriteFault> {
        text_of(alloc, self)
    }
}
