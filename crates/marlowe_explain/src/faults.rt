//! What is told of each fault.
ghost use Rattle.std.specs.Prelude.{◌≡◌, IfOk, string_bytes};
ghost use Rattle.contract.specs.Tree.{contract_tree};
ghost use Rattle.marlowe_explain.specs.Lines as spec;
ghost use Rattle.marlowe_explain.specs.Lines.{ambiguous_head, place_of};
ghost use Rattle.marlowe_explain.specs.Spelled.{ambiguous_told, invalid_told, past_told, sum_told, value_told};

use crate::members::{
    ambiguous_members, invalid_members, past_members, sum_members, value_members,
};
use crate::words::line_at;
use contract::{Contract, Interval, Memory, Party, Token};
use json_members::Spelling;
use marlowe_next::{PathStep, term_text, token_text};
use std::alloc::Global;

/// The interval ends before it begins.
pub(crate) fn invalid_told(
    alloc: Global,
    interval: Interval,
    spelling: Spelling,
) -> Result<Vec<u8>, Memory>
    ensures { IfOk result (λ text. text.items ≡ invalid_told spelling interval) }
{
    match spelling {
        Spelling::Lines => invalid_line(alloc, interval),
        Spelling::Members => invalid_members(alloc),
    }
}

fn invalid_line(alloc: Global, interval: Interval) -> Result<Vec<u8>, Memory>
    ensures { IfOk result (λ text. text.items ≡ spec.invalid_line interval) }
{
    let Interval { from, to } = interval;
    let line = format!(in alloc; "  the interval ends at {to}, before it begins at {from}\n")?;
    Ok(line.into_bytes())
}

/// The interval ends before the minimum time.
pub(crate) fn past_told(
    alloc: Global,
    interval: Interval,
    least: i64,
    spelling: Spelling,
) -> Result<Vec<u8>, Memory>
    ensures { IfOk result (λ text. text.items ≡ past_told spelling interval least) }
{
    match spelling {
        Spelling::Lines => past_line(alloc, interval, least),
        Spelling::Members => past_members(alloc, least),
    }
}

fn past_line(alloc: Global, interval: Interval, least: i64) -> Result<Vec<u8>, Memory>
    ensures { IfOk result (λ text. text.items ≡ spec.past_line interval least) }
{
    let to = interval.to;
    let line = format!(in alloc; "  the interval ends at {to}, before the minimum time {least}\n")?;
    Ok(line.into_bytes())
}

/// A timeout lies inside the interval, as it is fixed.
pub(crate) fn ambiguous_told(
    alloc: Global,
    contract: &Contract,
    place: &[PathStep],
    timeout: i64,
    fixed: Interval,
    spelling: Spelling,
) -> Result<Vec<u8>, Memory>
    ensures { IfOk result (λ text. text.items
        ≡ ambiguous_told spelling fixed (contract_tree contract.now) place.now timeout) }
{
    match spelling {
        Spelling::Lines => ambiguous_line(alloc, contract, place, timeout, fixed),
        Spelling::Members => ambiguous_members(alloc, contract, place, timeout),
    }
}

fn ambiguous_line(
    alloc: Global,
    contract: &Contract,
    place: &[PathStep],
    timeout: i64,
    fixed: Interval,
) -> Result<Vec<u8>, Memory>
    ensures { IfOk result (λ text. text.items ≡ spec.ambiguous_line fixed (place_of (contract_tree contract.now) place.now) timeout) }
{
    let Interval { from, to } = fixed;
    let head = ambiguous_head(alloc, timeout)?;
    let end = format!(in alloc; " lies inside the interval from {from} to {to}\n")?;
    line_at(alloc, head.as_bytes(), contract, place, end.as_bytes())
}

fn ambiguous_head(alloc: Global, timeout: i64) -> Result<String, Memory>
    ensures { IfOk result (λ text. string_bytes text ≡ ambiguous_head timeout) }
{
    format!(in alloc; "  the timeout {timeout} at ")
}

/// A number leaves 128 bits.
pub(crate) fn value_told(
    alloc: Global,
    contract: &Contract,
    place: &[PathStep],
    spelling: Spelling,
) -> Result<Vec<u8>, Memory>
    ensures { IfOk result (λ text. text.items ≡ value_told spelling (contract_tree contract.now) place.now) }
{
    match spelling {
        Spelling::Lines => value_line(alloc, contract, place),
        Spelling::Members => value_members(alloc, contract, place),
    }
}

fn value_line(alloc: Global, contract: &Contract, place: &[PathStep]) -> Result<Vec<u8>, Memory>
    ensures { IfOk result (λ text. text.items ≡ spec.value_line (place_of (contract_tree contract.now) place.now)) }
{
    line_at(
        alloc,
        b"  at ",
        contract,
        place,
        b": a number leaves 128 bits\n",
    )
}

/// The sum in an account leaves 128 bits.
pub(crate) fn sum_told(
    alloc: Global,
    contract: &Contract,
    place: &[PathStep],
    owner: &Party,
    token: &Token,
    spelling: Spelling,
) -> Result<Vec<u8>, Memory>
    ensures { IfOk result (λ text. text.items
        ≡ sum_told spelling (contract_tree contract.now) place.now owner.now token.now) }
{
    match spelling {
        Spelling::Lines => sum_line(alloc, contract, place, owner, token),
        Spelling::Members => sum_members(alloc, contract, place, owner, token),
    }
}

fn sum_line(
    alloc: Global,
    contract: &Contract,
    place: &[PathStep],
    owner: &Party,
    token: &Token,
) -> Result<Vec<u8>, Memory>
    ensures { IfOk result (λ text. text.items ≡ spec.sum_line (place_of (contract_tree contract.now) place.now) owner.now token.now) }
{
    let token = token_text(alloc, token)?;
    let owner = term_text(alloc, owner)?;
    let end = format!(in alloc;
        ": the sum of {token} in the account of {owner} leaves 128 bits\n"
    )?;
    line_at(alloc, b"  at ", contract, place, end.as_bytes())
}
