//! Tables of contracts.
use contract::{Case, Contract, TryClone};
use machine::table::{Cont, Entry, Table};
use marlowe_run::{CompileFault, compile, compile_fault_name, read_contract};
use rows_text::{
    RowFault, lent, nested, notify_and, number, parts, put_beside, put_copies, put_copy, times,
    waiting, wide,
};
use std::alloc::{AllocError, Global};

/// The answer to a row about a table.
pub fn table_row(alloc: Global, word: &str, text: &str) -> Result<Vec<u8>, RowFault> {
    let answer = match word {
        "last_timeout" => asked_row(alloc, text, Asked::LastTimeout)?,
        "copies" => asked_row(alloc, text, Asked::Copies)?,
        "nested" => made_row(alloc, nested(alloc, number(text)?)?, Asked::Height)?,
        "wide" => made_row(alloc, wide(alloc, number(text)?)?, Asked::Root)?,
        "grid" => {
            let (outer, inner) = parts(text)?;
            let contract = grid(alloc, number(outer)?, number(inner)?)?;
            made_row(alloc, contract, Asked::Root)?
        }
        _ => return Err(RowFault::NoSuchRow),
    };
    Ok(answer)
}

fn told(alloc: Global, line: &str) -> Result<Vec<u8>, AllocError> {
    Vec::from_slice(alloc, line.as_bytes())
}

fn told_fault(alloc: Global, fault: CompileFault) -> Result<Vec<u8>, AllocError> {
    told(alloc, compile_fault_name(fault))
}

// What is printed of the table of a contract and the number of its root.
#[derive(Clone, Copy)]
enum Asked {
    LastTimeout,
    Height,
    Root,
    Copies,
}

fn asked_row(alloc: Global, text: &str, asked: Asked) -> Result<Vec<u8>, AllocError> {
    match read_contract(alloc, text.as_bytes()) {
        Ok(contract) => lent(contract, |contract| compiled(alloc, contract, asked)),
        Err(_) => told(alloc, "no such row"),
    }
}

fn made_row(alloc: Global, contract: Contract, asked: Asked) -> Result<Vec<u8>, AllocError> {
    lent(contract, |contract| compiled(alloc, contract, asked))
}

// A contract that waits for so many notifies of what is true, each followed by an equal one that waits for so many more, and each
// of these by close. Nothing is shared in it.
fn grid(alloc: Global, outer: u32, inner: u32) -> Result<Contract, AllocError> {
    waiting(alloc, times(alloc, outer, wide_case(alloc, inner)))
}

fn wide_case(alloc: Global, inner: u32) -> Result<Case, AllocError> {
    let then = wide(alloc, inner)?;
    Ok(notify_and(then))
}

fn compiled(alloc: Global, contract: &Contract, asked: Asked) -> Result<Vec<u8>, AllocError> {
    match compile(alloc, contract) {
        Ok((table, root)) => lent(table, |table| asked_of(alloc, table, root, asked)),
        Err(fault) => told_fault(alloc, fault),
    }
}

fn asked_of(alloc: Global, table: &Table, root: Cont, asked: Asked) -> Result<Vec<u8>, AllocError> {
    match asked {
        Asked::LastTimeout => last(alloc, table, root),
        Asked::Height => height(alloc, table, root),
        Asked::Root => root_of(alloc, root),
        Asked::Copies => copies(alloc, table, root),
    }
}

// Whether a copy of the table, of its root and of each node is the same, and each node the one before it.
fn copies(alloc: Global, table: &Table, root: Cont) -> Result<Vec<u8>, AllocError> {
    let mut lines = String::from_str(alloc, "table")?;
    put_copy(&mut lines, table)?;
    lines.push_str(" root")?;
    put_copy(&mut lines, &root)?;
    put_nodes(&mut lines, "\nv", table.values())?;
    put_nodes(&mut lines, "\no", table.observations())?;
    put_nodes(&mut lines, "\nc", table.cases())?;
    put_nodes(&mut lines, "\nk", table.conts())?;
    Ok(lines.into_bytes())
}

fn put_nodes<N: TryClone + PartialEq + Drop>(
    lines: &mut String,
    letter: &str,
    nodes: &[Entry<N>],
) -> Result<(), AllocError> {
    lines.push_str(letter)?;
    put_copies(lines, nodes)?;
    put_beside(lines, nodes)
}

fn last(alloc: Global, table: &Table, root: Cont) -> Result<Vec<u8>, AllocError> {
    if !table.contains(root) {
        return told(alloc, "no such number");
    }
    match table.last_timeout(root) {
        Some(time) => {
            let line = format!(in alloc; "{time}")?;
            Ok(line.into_bytes())
        }
        None => told(alloc, "none"),
    }
}

fn height(alloc: Global, table: &Table, root: Cont) -> Result<Vec<u8>, AllocError> {
    if !table.contains(root) {
        return told(alloc, "no such number");
    }
    let height = table.cont_node(root).height;
    let line = format!(in alloc; "height {height}")?;
    Ok(line.into_bytes())
}

fn root_of(alloc: Global, root: Cont) -> Result<Vec<u8>, AllocError> {
    let number = root.0;
    let line = format!(in alloc; "root k{number}")?;
    Ok(line.into_bytes())
}
