//! Inputs.
ghost use Rattle.std.specs.Prelude.{◌≡◌, ◌++◌, OnOk, OnErr};
ghost use Rattle.contract_bytes.specs.Inputs.{input_bytes, InputFits};
ghost use Rattle.contract_bytes.specs.Writing.{AppendsFront};
ghost use Rattle.contract_bytes.specs.WritingSupport.{SpellsInput};

use crate::names_of::{put_choice_id, put_party, put_token};
use crate::number::{put_byte, put_number};
use contract::{ChoiceId, Input, Memory, Party, Token};

fn put_deposit(
    out: &mut Vec<u8>,
    account: &Party,
    party: &Party,
    token: &Token,
    amount: i128,
) -> Result<(), Memory>
    ensures { SpellsInput result (Input.Deposit account.now party.now token.now amount) out.old out.new }
{
    put_byte(out, 0x00)?;
    put_party(out, account)?;
    put_party(out, party)?;
    put_token(out, token)?;
    put_number(out, amount)
}

fn put_choice(out: &mut Vec<u8>, id: &ChoiceId, number: i128) -> Result<(), Memory>
    ensures { SpellsInput result (Input.Choice id.now number) out.old out.new }
{
    put_byte(out, 0x01)?;
    put_choice_id(out, id)?;
    put_number(out, number)
}

/// Appends an input: a tag, then its parts.
pub fn put_input(out: &mut Vec<u8>, input: &Input) -> Result<(), Memory>
    ensures spelling { OnOk result (out.new.items ≡ out.old.items ++ input_bytes input.now) }
    ensures fits { OnOk result (InputFits input.now) }
    ensures err { OnErr result (AppendsFront (input_bytes input.now) out.old.items out.new.items) }
{
    match input {
        Input::Deposit(account, party, token, amount) => {
            put_deposit(out, account, party, token, *amount)
        }
        Input::Choice(id, number) => put_choice(out, id, *number),
        Input::Notify => put_byte(out, 0x02),
    }
}
