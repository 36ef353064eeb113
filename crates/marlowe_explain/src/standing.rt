//! Where a contract stands, and what it takes there.
ghost use Rattle.std.specs.Prelude.{◌≡◌, ◌∷◌, ◌++◌, true, IfOk, string_bytes};
ghost use Rattle.contract.specs.Tree.{contract_tree};
ghost use Rattle.marlowe_explain.specs.Lines as spec;
ghost use Rattle.marlowe_explain.specs.Lines.{indented, place_of, unmatched_head};
ghost use Rattle.marlowe_explain.specs.Spelled.{is_for_tools, unmatched_told, useless_told};
ghost use Rattle.marlowe_explain.specs.Explained.{IsNext, asks_over};

use crate::indent::put_indented;
use crate::members::{unmatched_members, useless_members};
use crate::words::{input_text, line_at};
use contract::{Contract, Input, Interval, Memory};
use json_members::Spelling;
use marlowe_next::{Asked, Left, PathStep, Readable, next_there};
use std::alloc::{AllocError, Global};

/// How many inputs lines tell at most, so that a terminal has room for what stands before them.
const MOST_INPUTS: usize = 20;

/// What the part of a contract takes that is left, over a fixed interval, as what can be done next is told: in lines the first inputs, and
/// how many more there are, as members all.
pub(crate) fn next_text(
    alloc: Global,
    contract: &Contract,
    left: &Left<'_>,
    fixed: Interval,
    spelling: Spelling,
) -> Result<Vec<u8>, Memory>
    ensures { IfOk result (λ text. IsNext spelling fixed (contract_tree contract.now) left.now text.items) }
{
    let asked = asks_over(spelling, fixed);
    match next_there(alloc, contract, left, asked, MOST_INPUTS) {
        Ok(text) => Ok(text),
        Err(_) => Err(AllocError),
    }
}

fn asks_over(spelling: Spelling, interval: Interval) -> Asked
    ensures { result ≡ asks_over spelling interval }
{
    Asked {
        from: Some(interval.from),
        to: Some(interval.to),
        readable: Readable {
            depth: 127,
            text_numbers: false,
        },
        json: is_for_tools(spelling),
    }
}

fn is_for_tools(spelling: Spelling) -> bool
    ensures { result ≡ is_for_tools spelling }
{
    match spelling {
        Spelling::Lines => false,
        Spelling::Members => true,
    }
}

/// No case takes an input.
pub(crate) fn unmatched_told(
    alloc: Global,
    contract: &Contract,
    index: usize,
    input: &Input,
    place: &[PathStep],
    next: &[u8],
    spelling: Spelling,
) -> Result<Vec<u8>, Memory>
    ensures { IfOk result (λ text. text.items
        ≡ unmatched_told spelling (contract_tree contract.now) index input.now place.now next.now) }
{
    match spelling {
        Spelling::Lines => unmatched_lines(alloc, contract, index, input, place, next),
        Spelling::Members => unmatched_members(alloc, contract, index, place, next),
    }
}

fn unmatched_lines(
    alloc: Global,
    contract: &Contract,
    index: usize,
    input: &Input,
    place: &[PathStep],
    next: &[u8],
) -> Result<Vec<u8>, Memory>
    ensures { IfOk result (λ text. text.items
        ≡ spec.unmatched_lines index input.now (place_of (contract_tree contract.now) place.now) next.now) }
{
    let head = unmatched_head(alloc, index, input)?;
    standing_text(alloc, head.as_bytes(), contract, place, next)
}

fn unmatched_head(alloc: Global, index: usize, input: &Input) -> Result<String, Memory>
    ensures { IfOk result (λ text. string_bytes text ≡ unmatched_head index input.now) }
{
    let input = input_text(alloc, input)?;
    format!(in alloc; "  at .tx_inputs[{index}]: no case takes {input}\n  the contract stands at ")
}

/// There is nothing to do.
pub(crate) fn useless_told(
    alloc: Global,
    contract: &Contract,
    place: &[PathStep],
    next: &[u8],
    spelling: Spelling,
) -> Result<Vec<u8>, Memory>
    ensures { IfOk result (λ text. text.items ≡ useless_told spelling (contract_tree contract.now) place.now next.now) }
{
    match spelling {
        Spelling::Lines => useless_lines(alloc, contract, place, next),
        Spelling::Members => useless_members(alloc, contract, place, next),
    }
}

fn useless_lines(
    alloc: Global,
    contract: &Contract,
    place: &[PathStep],
    next: &[u8],
) -> Result<Vec<u8>, Memory>
    ensures { IfOk result (λ text. text.items ≡ spec.useless_lines (place_of (contract_tree contract.now) place.now) next.now) }
{
    let head = b"  there is no input, and nothing to reduce; the contract stands at ";
    standing_text(alloc, head, contract, place, next)
}

// Where a contract stands, and what it takes there.
fn standing_text(
    alloc: Global,
    head: &[u8],
    contract: &Contract,
    place: &[PathStep],
    next: &[u8],
) -> Result<Vec<u8>, Memory>
    ensures { IfOk result (λ text. text.items
        ≡ head.now ++ (place_of (contract_tree contract.now) place.now ++ 10 ∷ indented true next.now)) }
{
    let mut out = line_at(alloc, head, contract, place, b"\n")?;
    put_indented(&mut out, next)?;
    Ok(out)
}
