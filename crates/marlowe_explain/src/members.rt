//! Members of a JSON object for tools.
ghost use Rattle.std.specs.Prelude.{◌≡◌, ◌++◌, ◌-◌, codes, length, take, IfOk, OnOk, OnErr};
ghost use Rattle.contract.specs.Tree.{contract_tree};
ghost use Rattle.marlowe_next.specs.JsonWriteContracts.Tokens.{Keeps, Puts};
ghost use Rattle.marlowe_next.specs.JsonWriteContracts.WrittenNames.{party_json, token_json};
ghost use Rattle.json_members.specs.Members.{next_member};
ghost use Rattle.marlowe_next.specs.Places.Texts.{place_json};
ghost use Rattle.marlowe_explain.specs.Members as spec;

use contract::{Contract, Memory, Party, Token};
use json::Writer;
use json_members::{Count, put_first, put_next, put_next_text};
use marlowe_next::{Key, PathStep, Term, keys_of, put_place_json};
use std::alloc::Global;

/// The interval ends before it begins.
pub(crate) fn invalid_members(alloc: Global) -> Result<Vec<u8>, Memory>
    ensures { IfOk result (λ text. text.items ≡ spec.invalid_members) }
{
    reason(alloc, "invalid_interval")
}

/// It ends before the minimum time.
pub(crate) fn past_members(alloc: Global, least: i64) -> Result<Vec<u8>, Memory>
    ensures { IfOk result (λ text. text.items ≡ spec.past_members least) }
{
    let mut out = reason(alloc, "interval_in_past")?;
    put_next(alloc, &mut out, "least", &least)?;
    Ok(out)
}

/// A timeout lies inside it.
pub(crate) fn ambiguous_members(
    alloc: Global,
    contract: &Contract,
    place: &[PathStep],
    timeout: i64,
) -> Result<Vec<u8>, Memory>
    ensures { IfOk result (λ text. text.items ≡ spec.ambiguous_members (contract_tree contract.now) place.now timeout) }
{
    let mut out = reason(alloc, "ambiguous")?;
    put_place(alloc, &mut out, contract, place)?;
    put_next(alloc, &mut out, "timeout", &timeout)?;
    Ok(out)
}

/// A number leaves 128 bits.
pub(crate) fn value_members(
    alloc: Global,
    contract: &Contract,
    place: &[PathStep],
) -> Result<Vec<u8>, Memory>
    ensures { IfOk result (λ text. text.items ≡ spec.value_members (contract_tree contract.now) place.now) }
{
    let mut out = reason(alloc, "value_leaves")?;
    put_place(alloc, &mut out, contract, place)?;
    Ok(out)
}

/// The sum in an account leaves 128 bits.
pub(crate) fn sum_members(
    alloc: Global,
    contract: &Contract,
    place: &[PathStep],
    owner: &Party,
    token: &Token,
) -> Result<Vec<u8>, Memory>
    ensures { IfOk result (λ text. text.items ≡ spec.sum_members (contract_tree contract.now) place.now owner.now token.now) }
{
    let mut out = reason(alloc, "sum_leaves")?;
    put_place(alloc, &mut out, contract, place)?;
    put_account(alloc, &mut out, owner, token)?;
    Ok(out)
}

/// No case takes the input at an index, and what can be done next is this.
pub(crate) fn unmatched_members(
    alloc: Global,
    contract: &Contract,
    index: usize,
    place: &[PathStep],
    next: &[u8],
) -> Result<Vec<u8>, Memory>
    ensures { IfOk result (λ text. text.items
        ≡ spec.unmatched_members (contract_tree contract.now) index place.now next.now) }
{
    let mut out = reason(alloc, "no_match")?;
    put_next(alloc, &mut out, "input", &Count(index))?;
    put_standing(alloc, &mut out, contract, place, next)?;
    Ok(out)
}

/// There is nothing to do, and what can be done next is this.
pub(crate) fn useless_members(
    alloc: Global,
    contract: &Contract,
    place: &[PathStep],
    next: &[u8],
) -> Result<Vec<u8>, Memory>
    ensures { IfOk result (λ text. text.items ≡ spec.useless_members (contract_tree contract.now) place.now next.now) }
{
    let mut out = reason(alloc, "useless")?;
    put_standing(alloc, &mut out, contract, place, next)?;
    Ok(out)
}

// ---- single members

fn reason(alloc: Global, word: &str) -> Result<Vec<u8>, Memory>
    ensures { IfOk result (λ text. text.items ≡ spec.reason_member word.now) }
{
    let mut out = Vec::new(alloc);
    put_first(alloc, &mut out, "reason", &word)?;
    Ok(out)
}

fn put_place(
    alloc: Global,
    out: &mut Vec<u8>,
    contract: &Contract,
    place: &[PathStep],
) -> Result<(), Memory>
    ensures { OnOk result (out.new.items ≡ out.old.items ++ spec.place_member (contract_tree contract.now) place.now) }
{
    let keys = keys_of(alloc, contract, place)?;
    put_next(alloc, out, "place", &Place(keys.as_slice()))
}

// Keys of a place.
#[derive(Clone, Copy)]
struct Place<'a>(&'a [Key]);

impl<'a> Term for Place<'a> {
    ghost json = { λ place. place_json place.0.now };

    fn put(&self, _alloc: Global, out: &mut Writer) -> Result<(), Memory> {
        put_place_json(out, self.0)
    }
}

// The owner and the token of an account.
fn put_account(alloc: Global, out: &mut Vec<u8>, owner: &Party, token: &Token) -> Result<(), Memory>
    ensures { OnOk result (out.new.items ≡ out.old.items
        ++ (next_member (codes "party") (party_json owner.now) ++ next_member (codes "token") (token_json token.now))) }
{
    put_next(alloc, out, "party", owner)?;
    put_next(alloc, out, "token", token)
}

// Where the contract stands, and what can be done next.
fn put_standing(
    alloc: Global,
    out: &mut Vec<u8>,
    contract: &Contract,
    place: &[PathStep],
    next: &[u8],
) -> Result<(), Memory>
    ensures { OnOk result (out.new.items ≡ out.old.items
        ++ (spec.place_member (contract_tree contract.now) place.now ++ spec.next_answer next.now)) }
{
    put_place(alloc, out, contract, place)?;
    put_answer(out, next)
}

fn put_answer(out: &mut Vec<u8>, line: &[u8]) -> Result<(), Memory>
    ensures { OnOk result (out.new.items ≡ out.old.items ++ spec.next_answer line.now) }
{
    put_next_text(out, "next", without_feed(line))
}

// A line without its line feed.
fn without_feed(line: &[u8]) -> &[u8]
    ensures { result.now ≡ take (length line.now - 1) line.now }
{
    if line.len() > 0 {
        &line[..line.len() - 1]
    } else {
        line
    }
}
