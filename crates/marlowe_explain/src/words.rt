//! Pieces of the lines: bytes, places and inputs.
ghost use Rattle.std.specs.Prelude.{◌≡◌, ◌++◌, IfOk, OnOk, string_bytes};
ghost use Rattle.contract.specs.Tree.{contract_tree};
ghost use Rattle.marlowe_explain.specs.Lines.{input_text, place_of};
ghost use Rattle.marlowe_next.specs.NextLines.Lines.{money_text};

use contract::{Contract, Input, Memory, Token};
use marlowe_next::{PathStep, keys_of, put_place, term_text, token_text};
use std::alloc::Global;

/// Puts bytes behind a text.
pub(crate) fn put_bytes(out: &mut Vec<u8>, bytes: &[u8]) -> Result<(), Memory>
    ensures { OnOk result (out.new.items ≡ out.old.items ++ bytes.now) }
{
    out.extend_from_slice(bytes)?;
    Ok(())
}

/// A place of a contract between two pieces.
pub(crate) fn line_at(
    alloc: Global,
    head: &[u8],
    contract: &Contract,
    place: &[PathStep],
    end: &[u8],
) -> Result<Vec<u8>, Memory>
    ensures { IfOk result (λ text. text.items ≡ head.now ++ (place_of (contract_tree contract.now) place.now ++ end.now)) }
{
    let keys = keys_of(alloc, contract, place)?;
    let mut out = Vec::from_slice(alloc, head)?;
    put_place(alloc, &mut out, &keys)?;
    put_bytes(&mut out, end)?;
    Ok(out)
}

/// An input, as what can be done next is told.
pub(crate) fn input_text(alloc: Global, input: &Input) -> Result<String, Memory>
    ensures { IfOk result (λ text. string_bytes text ≡ input_text input.now) }
{
    match input {
        Input::Deposit(account, party, token, amount) => {
            let money = money_text(alloc, *amount, token)?;
            let party = term_text(alloc, party)?;
            let account = term_text(alloc, account)?;
            format!(in alloc; "deposit {money} by {party} into {account}")
        }
        Input::Choice(id, number) => {
            let number = *number;
            let name = term_text(alloc, &id.name)?;
            let owner = term_text(alloc, &id.owner)?;
            format!(in alloc; "choose {name} of {owner}: {number}")
        }
        Input::Notify => format!(in alloc; "notify"),
    }
}

// An amount of a token.
fn money_text(alloc: Global, amount: i128, token: &Token) -> Result<String, Memory>
    ensures { IfOk result (λ text. string_bytes text ≡ money_text amount token.now) }
{
    let token = token_text(alloc, token)?;
    format!(in alloc; "{amount} {token}")
}
