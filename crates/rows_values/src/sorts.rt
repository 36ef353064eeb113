//! Values of each sort that has a form in JSON.
use crate::forms::{Form, form_of, text_of};
use contract::{
    Action, Bound, Case, ChoiceId, Contract, Input, Observation, Party, Payee, State, Token,
    TryClone, Value,
};
use marlowe_run::{JsonFault, Transaction, WriteFault, json_fault_name, write_fault_name};
use rows_text::{RowFault, same_or_other};
use std::alloc::{AllocError, Global};

/// What is printed of a value.
#[derive(Clone, Copy)]
pub enum Asked<'t> {
    /// What is written for it.
    Form,
    /// Whether a copy is the same.
    Copy,
    /// Whether it is the same as that of another text.
    Compare(&'t [u8]),
}

/// What is printed of the value of a sort that a text stands for.
pub fn sort_row(
    alloc: Global,
    sort: &str,
    text: &[u8],
    asked: Asked<'_>,
) -> Result<Vec<u8>, RowFault> {
    let told = match sort {
        "contract" => told::<Contract>(alloc, text, asked),
        "input" => told::<Input>(alloc, text, asked),
        "transaction" => told::<Transaction>(alloc, text, asked),
        "state" => told::<State>(alloc, text, asked),
        "value" => told::<Value>(alloc, text, asked),
        "observation" => told::<Observation>(alloc, text, asked),
        "action" => told::<Action>(alloc, text, asked),
        "case" => told::<Case>(alloc, text, asked),
        "party" => told::<Party>(alloc, text, asked),
        "token" => told::<Token>(alloc, text, asked),
        "choice_id" => told::<ChoiceId>(alloc, text, asked),
        "payee" => told::<Payee>(alloc, text, asked),
        "bound" => told::<Bound>(alloc, text, asked),
        _ => no_such_sort(alloc),
    };
    Ok(told?)
}

fn told<T: Form + TryClone + PartialEq>(
    alloc: Global,
    text: &[u8],
    asked: Asked<'_>,
) -> Result<Vec<u8>, AllocError> {
    match form_of::<T>(alloc, text) {
        Ok(thing) => told_of(alloc, &thing, asked),
        Err(fault) => named(alloc, fault),
    }
}

fn told_of<T: Form + TryClone + PartialEq>(
    alloc: Global,
    thing: &T,
    asked: Asked<'_>,
) -> Result<Vec<u8>, AllocError> {
    match asked {
        Asked::Form => text_or_fault(alloc, text_of(alloc, thing)),
        Asked::Copy => {
            let copy = thing.try_clone()?;
            put_word(alloc, same_or_other(copy == *thing))
        }
        Asked::Compare(other) => match form_of::<T>(alloc, other) {
            Ok(other) => put_word(alloc, same_or_other(*thing == other)),
            Err(fault) => named(alloc, fault),
        },
    }
}

/// A text that was written, or the name of the fault.
pub fn text_or_fault(
    alloc: Global,
    text: Result<Vec<u8>, WriteFault>,
) -> Result<Vec<u8>, AllocError> {
    match text {
        Ok(text) => Ok(text),
        Err(fault) => put_word(alloc, write_fault_name(fault)),
    }
}

/// The name of a fault.
pub fn named(alloc: Global, fault: JsonFault) -> Result<Vec<u8>, AllocError> {
    put_word(alloc, json_fault_name(fault))
}

/// What is printed for a sort that there isn't.
pub fn no_such_sort(alloc: Global) -> Result<Vec<u8>, AllocError> {
    put_word(alloc, "no such sort")
}

/// A word, as bytes.
pub fn put_word(alloc: Global, word: &str) -> Result<Vec<u8>, AllocError> {
    Vec::from_slice(alloc, word.as_bytes())
}
