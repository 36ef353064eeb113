//! Runs on the tree of a contract and on its table.
use contract::{Contract, Outcome, SemFault, TryClone};
use machine::table::{Cont, Table};
use machine::{Datum, compute};
use marlowe_run::{
    Fault, RunFault, Transaction, compile, read_contract, read_state, read_transaction, refusal,
    run, write_outcome,
};
use rows_given::Given;
use rows_text::{RowFault, both, lent};
use std::alloc::{AllocError, Global};

/// The outcome of a transaction, or the line of its refusal; and where the table of the contract doesn't stand for it, or a run on that
/// tells another thing, that as well.
pub fn run_row(alloc: Global, given: &Given, transaction: &[u8]) -> Result<Vec<u8>, RowFault> {
    let contract = given.file("contract.json").ok_or(RowFault::NoSuchRow)?;
    let state = given.file("state.json").ok_or(RowFault::NoSuchRow)?;
    let mut told = told_on_tree(alloc, contract, state, transaction)?;
    let on_table = told_on_table(alloc, contract, state, transaction)?;
    if told != on_table {
        told.extend_from_slice(b" but on the table ")?;
        told.extend_from_slice(on_table.as_slice())?;
    }
    Ok(told)
}

// What is printed for a run, without a line feed.
fn told_on_tree(
    alloc: Global,
    contract: &[u8],
    state: &[u8],
    transaction: &[u8],
) -> Result<Vec<u8>, AllocError> {
    match run(alloc, contract, state, transaction) {
        Ok(mut text) => {
            text.pop();
            Ok(text)
        }
        Err(fault) => refusal(alloc, &Fault::Run(fault)),
    }
}

// What is printed for a run on a contract that is compiled first, without a line feed.
fn told_on_table(
    alloc: Global,
    contract: &[u8],
    state: &[u8],
    transaction: &[u8],
) -> Result<Vec<u8>, AllocError> {
    match read_contract(alloc, contract) {
        Ok(contract) => lent(contract, |contract| {
            told_on_compiled(alloc, contract, state, transaction)
        }),
        Err(fault) => refusal(alloc, &Fault::Run(RunFault::of_contract(fault))),
    }
}

fn told_on_compiled(
    alloc: Global,
    contract: &Contract,
    state: &[u8],
    transaction: &[u8],
) -> Result<Vec<u8>, AllocError> {
    let Ok((table, root)) = compile(alloc, contract) else {
        return Vec::from_slice(alloc, b"there is none");
    };
    lent(table, |table| {
        if stands_for(alloc, table, root, contract)? {
            outcome_or_refusal(alloc, table, root, state, transaction)
        } else {
            Vec::from_slice(alloc, b"another contract stands")
        }
    })
}

// Whether a number stands for a contract.
fn stands_for(
    alloc: Global,
    table: &Table,
    root: Cont,
    contract: &Contract,
) -> Result<bool, AllocError> {
    if !table.contains(root) {
        return Ok(false);
    }
    let again = table.decompile(alloc, root)?;
    Ok(lent(again, |again| *again == *contract))
}

fn outcome_or_refusal(
    alloc: Global,
    table: &Table,
    root: Cont,
    state: &[u8],
    transaction: &[u8],
) -> Result<Vec<u8>, AllocError> {
    match outcome_text(alloc, table, root, state, transaction) {
        Ok(text) => Ok(text),
        Err(fault) => refusal(alloc, &Fault::Run(fault)),
    }
}

fn outcome_text(
    alloc: Global,
    table: &Table,
    root: Cont,
    state: &[u8],
    transaction: &[u8],
) -> Result<Vec<u8>, RunFault> {
    let state = read_state(alloc, state).map_err(RunFault::of_state);
    let transaction = read_transaction(alloc, transaction).map_err(RunFault::of_transaction);
    let (state, transaction) = both(state, transaction)?;
    let datum = Datum { cont: root, state };
    lent(
        (datum, transaction),
        |given| computed_text(alloc, table, &given.0, &given.1),
    )
}

fn computed_text(
    alloc: Global,
    table: &Table,
    datum: &Datum,
    transaction: &Transaction,
) -> Result<Vec<u8>, RunFault> {
    if !table.contains(datum.cont) {
        return Err(RunFault::Semantics(SemFault::NoMatch));
    }
    let outcome = compute(
        alloc,
        table,
        datum,
        transaction.interval,
        transaction.inputs.as_slice(),
    )?;
    written(alloc, table, copied(outcome)?)
}

// A copy of a thing, in place of what it is of. It is generic, so that no proof walks through the drop of an outcome.
fn copied<T: TryClone + PartialEq + Drop>(thing: T) -> Result<T, RunFault> {
    let copy = thing.try_clone()?;
    if copy == thing {
        Ok(copy)
    } else {
        Err(RunFault::Semantics(SemFault::NoMatch))
    }
}

// The text of an outcome, whose contract is what its number stands for.
fn written(alloc: Global, table: &Table, outcome: Outcome<Cont>) -> Result<Vec<u8>, RunFault> {
    let contract = contract_at(alloc, table, outcome.place);
    let (outcome, contract) = both(Ok(outcome), contract)?;
    let Outcome {
        warnings,
        payments,
        state,
        place: _,
    } = outcome;
    lent(contract, |contract| {
        let outcome = Outcome {
            warnings,
            payments,
            state,
            place: contract,
        };
        Ok(write_outcome(alloc, &outcome)?)
    })
}

fn contract_at(alloc: Global, table: &Table, place: Cont) -> Result<Contract, RunFault> {
    if table.contains(place) {
        Ok(table.decompile(alloc, place)?)
    } else {
        Err(RunFault::Semantics(SemFault::NoMatch))
    }
}
