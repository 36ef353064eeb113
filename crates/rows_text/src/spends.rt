//! Inputs of a transaction.
use crate::amounts::token_of;
use crate::carried::{both, done, put, times};
use crate::fault::RowFault;
use crate::known::Known;
use crate::references::reference_of;
use crate::words::{first, number, parts, sides, text};
use contract::{Input, Items, Memory, Party};
use contract_json::read_input;
use roles::{OutputRef, Redeemer, Spend};
use std::alloc::Global;

/// An input, from `REFERENCE REDEEMER`.
pub fn spend_of(alloc: Global, known: &Known, rest: &str) -> Result<Spend, RowFault> {
    let (reference, redeemer) = parts(rest)?;
    let reference = reference_of(&known.sent, reference)?;
    let redeemer = redeemer_of(alloc, known, redeemer)?;
    Ok(Spend {
        reference,
        redeemer,
    })
}

fn redeemer_of(alloc: Global, known: &Known, rest: &str) -> Result<Redeemer, RowFault> {
    let (word, inputs) = first(rest);
    match word {
        "none" => Ok(Redeemer::None),
        "claim" => Ok(Redeemer::Claim),
        "step" => Ok(Redeemer::Step(inputs_of(alloc, known, inputs)?)),
        "notifies" => {
            let notifies = times(alloc, number(inputs)?, Ok(Input::Notify))?;
            Ok(Redeemer::Step(notifies))
        }
        _ => Err(RowFault::NoSuchRow),
    }
}

/// The inputs of a contract that words stand for.
pub fn inputs_of(alloc: Global, known: &Known, words: &str) -> Result<Items<Input>, RowFault> {
    let mut inputs = Items::new(alloc);
    let put = put_inputs(alloc, known, &mut inputs, words);
    done(inputs, put)
}

fn put_inputs(
    alloc: Global,
    known: &Known,
    inputs: &mut Items<Input>,
    words: &str,
) -> Result<(), RowFault> {
    for word in words.split_whitespace() {
        put_input(alloc, inputs, known.text_of(word)?)?;
    }
    Ok(())
}

fn put_input(alloc: Global, inputs: &mut Items<Input>, word: &str) -> Result<(), RowFault> {
    match word {
        "notify" => put(inputs, Ok(Input::Notify)),
        _ => put(inputs, input_of(alloc, word)),
    }
}

fn input_of(alloc: Global, word: &str) -> Result<Input, RowFault> {
    match word.strip_prefix("deposit:") {
        Some(rest) => deposit_of(alloc, rest),
        None => Ok(read_input(alloc, word.as_bytes())?),
    }
}

// From `PARTY:ACCOUNT:AMOUNT`.
fn deposit_of(alloc: Global, rest: &str) -> Result<Input, RowFault> {
    let (party, rest) = sides(rest, ':')?;
    let (account, amount) = sides(rest, ':')?;
    let amount = number(amount)?;
    let parties = both(text(alloc, party), text(alloc, account));
    let ((party, account), ada) = both(parties, token_of(alloc, "ada"))?;
    Ok(Input::Deposit(Party::Address(account), Party::Address(party), ada, amount))
}

/// Puts so many inputs behind the others, which give nothing: outputs that the ledger began with, from a place on.
pub fn put_keys(inputs: &mut Items<Spend>, first: u64, count: u64) -> Result<(), Memory> {
    for index in first..first.saturating_add(count) {
        inputs.push(Spend {
            reference: OutputRef::Genesis { index },
            redeemer: Redeemer::None,
        })?;
    }
    Ok(())
}
