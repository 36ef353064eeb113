//! What no text of the greatest length stands for: numbers that JSON lacks, and large contracts.
use crate::sorts::text_or_fault;
use crate::spellings::in_hex;
use contract::{Boxed, Contract, Text, TryClone, Value};
use machine::contract_bytes::encode_contract;
use marlowe_run::write_contract;
use rows_text::{RowFault, lent, number, same_or_other, wide};
use std::alloc::{AllocError, Global};

/// The bytes of the contract that binds `x` to a number, and a line for its text or the fault of writing it.
pub fn constant_row(alloc: Global, text: &str) -> Result<Vec<u8>, RowFault> {
    let value = Value::Constant(number(text)?);
    let name = Text::from_string(String::from_str(alloc, "x")?);
    let close = Boxed::new(alloc, Contract::Close)?;
    let contract = Contract::Let(name, value, close);
    Ok(lent(contract, |contract| bytes_and_text(alloc, contract))?)
}

fn bytes_and_text(alloc: Global, contract: &Contract) -> Result<Vec<u8>, AllocError> {
    let bytes = encode_contract(alloc, contract)?;
    let mut lines = in_hex(alloc, bytes.as_slice())?;
    lines.push(b'\n')?;
    let text = text_or_fault(alloc, write_contract(alloc, contract))?;
    lines.extend_from_slice(text.as_slice())?;
    Ok(lines)
}

/// Whether a copy of a contract that waits for so many notifies is the same, and how many bytes the contract has.
pub fn large_row(alloc: Global, text: &str) -> Result<Vec<u8>, RowFault> {
    let contract = wide(alloc, number(text)?)?;
    Ok(lent(contract, |contract| copy_and_length(alloc, contract))?)
}

fn copy_and_length(alloc: Global, contract: &Contract) -> Result<Vec<u8>, AllocError> {
    let same = same_or_other(lent(contract.try_clone()?, |copy| *copy == *contract));
    let bytes = encode_contract(alloc, contract)?;
    let told = format!(in alloc; "{same} in {} bytes", bytes.len())?;
    Ok(told.into_bytes())
}
