//! The text that explains.
ghost use Rattle.std.specs.Prelude.{◌≡◌, ◌++◌, IfOk, OnOk, option_map};
ghost use Rattle.contract.specs.Tree.{contract_tree};
ghost use Rattle.explain_tables.specs.Explained.{TellsIfRefused, line_of, member_of, spelled};
ghost use Rattle.explain_tables.specs.Lines.{deep_line, continuations_line, others_line};
ghost use Rattle.places.specs.Places.{keys_of};
ghost use Rattle.places.specs.Texts.{place_text};

use crate::explanation::Explanation;
use crate::finding::explain;
use crate::members::{deep_member, nodes_member};
use analysis_spec::PathStep;
use contract::{Contract, Memory};
use json_members::Spelling;
use places::{keys_of, put_place};
use std::alloc::Global;
use text_spots::put_path_shown;

/// Why a contract has no table, as a line for people or as a member for tools: where it is too deep, or how many nodes it has. The
/// line begins with two blanks and ends with a line feed. None where the contract has a table, or where its nodes are 2^32 or more.
pub fn explained(
    alloc: Global,
    contract: &Contract,
    spelling: Spelling,
) -> Result<Option<Vec<u8>>, Memory>
    ensures { IfOk result (λ found. TellsIfRefused spelling (contract_tree contract.now) (option_map (λ text. text.items) found)) }
{
    match explain(alloc, contract)? {
        Some(explanation) => Ok(Some(spelled(alloc, contract, &explanation, spelling)?)),
        None => Ok(None),
    }
}

// The text of an explanation.
fn spelled(
    alloc: Global,
    contract: &Contract,
    explanation: &Explanation,
    spelling: Spelling,
) -> Result<Vec<u8>, Memory>
    ensures { IfOk result (λ text. text.items ≡ spelled spelling (contract_tree contract.now) explanation.now) }
{
    match spelling {
        Spelling::Lines => line(alloc, contract, explanation),
        Spelling::Members => member(alloc, contract, explanation),
    }
}

fn line(alloc: Global, contract: &Contract, explanation: &Explanation) -> Result<Vec<u8>, Memory>
    ensures { IfOk result (λ text. text.items ≡ line_of (contract_tree contract.now) explanation.now) }
{
    match explanation {
        Explanation::Deep(place) => deep(alloc, contract, place.as_slice()),
        Explanation::Continuations(count) => too_many_continuations(alloc, *count),
        Explanation::Others(count) => too_many_others(alloc, *count),
    }
}

fn member(alloc: Global, contract: &Contract, explanation: &Explanation) -> Result<Vec<u8>, Memory>
    ensures { IfOk result (λ text. text.items ≡ member_of (contract_tree contract.now) explanation.now) }
{
    match explanation {
        Explanation::Deep(place) => deep_member(alloc, contract, place.as_slice()),
        Explanation::Continuations(count) => nodes_member(alloc, *count),
        Explanation::Others(count) => nodes_member(alloc, *count),
    }
}

fn deep(alloc: Global, contract: &Contract, place: &[PathStep]) -> Result<Vec<u8>, Memory>
    ensures { IfOk result (λ text. text.items ≡ deep_line (contract_tree contract.now) place.now) }
{
    let mut path = Vec::new(alloc);
    put_place_of(alloc, &mut path, contract, place)?;
    let mut out = Vec::new(alloc);
    put_bytes(&mut out, b"  the contract is more than 999 parts deep at ")?;
    put_path_shown(&mut out, path.as_slice())?;
    put_bytes(&mut out, b"\n")?;
    Ok(out)
}

fn put_place_of(
    alloc: Global,
    out: &mut Vec<u8>,
    contract: &Contract,
    place: &[PathStep],
) -> Result<(), Memory>
    ensures { OnOk result (out.new.items ≡ out.old.items ++ place_text (keys_of place.now (contract_tree contract.now))) }
{
    let keys = keys_of(alloc, contract, place)?;
    put_place(alloc, out, &keys)
}

fn too_many_continuations(alloc: Global, count: u32) -> Result<Vec<u8>, Memory>
    ensures { IfOk result (λ text. text.items ≡ continuations_line count) }
{
    let line = format!(in alloc;
        "  the contract has {count} continuations; a table has at most 65535\n"
    )?;
    Ok(line.into_bytes())
}

fn too_many_others(alloc: Global, count: u32) -> Result<Vec<u8>, Memory>
    ensures { IfOk result (λ text. text.items ≡ others_line count) }
{
    let line = format!(in alloc;
        "  the contract has {count} values, observations and cases; a table has at most 1000000\n"
    )?;
    Ok(line.into_bytes())
}

fn put_bytes(out: &mut Vec<u8>, bytes: &[u8]) -> Result<(), Memory>
    ensures { OnOk result (out.new.items ≡ out.old.items ++ bytes.now) }
{
    out.extend_from_slice(bytes)?;
    Ok(())
}
