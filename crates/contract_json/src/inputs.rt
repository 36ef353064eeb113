//! Inputs and transactions, written to a text.
//! Where a call fails, what was written before it stays, and behind it stand some tokens or none.
ghost use Rattle.std.specs.Prelude.{◌≡◌, true, [], ◌∷◌, ◌++◌, map, OnOk, OnErr};
ghost use Rattle.std.specs.List.{list_all};
ghost use Rattle.hex.specs.Hex.{IsBytes};
ghost use Rattle.json.specs.Token as json_token;
ghost use Rattle.serde_json.specs.Data.{array};
ghost use Rattle.serde_json.specs.View.{items_of};
ghost use Rattle.json_write_outcomes.specs.Each.{Each};
ghost use Rattle.json_write_contracts.specs.Members.{member_tokens, AddsFitting};
ghost use Rattle.json_write_contracts.specs.Tokens.{Keeps, Puts, PutsFitting};
ghost use Rattle.contract_json.specs.InputSymbols.{InputSymbols};
ghost use Rattle.json_write_contracts.specs.WrittenNames as written_names;
ghost use Rattle.json_write_contracts.specs.WrittenNames.{number_fits, time_fits};
ghost use Rattle.contract_json.specs.Puts.{PutsInput};
ghost use Rattle.contract_json.specs.WrittenInput.{input_json, input_fits, interval_json, transaction_json, transaction_fits};

use contract::{ChoiceId, Input, Interval, Items, Memory, Party, Token, Transaction};
use json::Writer;
use json_write_contracts::{
    WriteFault, end_with_one, put_member, put_number, symbol_is_bytes, word,
};
use std::alloc::Global;

// The last member of an object, a number, and the object's end.
fn end_with_number(out: &mut Writer, key: &str, number: &i128) -> Result<(), WriteFault>
    ensures put { AddsFitting result out.old out.new (number_fits number.now)
        (member_tokens key.now (written_names.number_json number.now) ++ json_token.Token.end_object ∷ []) }
    ensures err { OnErr result (Keeps out.old out.new) }
{
    out.key(key)?;
    put_number(out, *number)?;
    Ok(out.end_object()?)
}

// few ways out
fn put_deposit(
    alloc: Global,
    out: &mut Writer,
    account: &Party,
    party: &Party,
    token: &Token,
    amount: &i128,
) -> Result<(), WriteFault>
    ensures put { PutsInput result out.old out.new (Input.Deposit account.now party.now token.now amount.now) }
    ensures err { OnErr result (Keeps out.old out.new) }
    ensures symbol { OnOk result (IsBytes token.now.symbol) }
{
    // touch: the symbol is bytes
    symbol_is_bytes(token);
    out.begin_object()?;
    put_member(alloc, out, "input_from_party", party)?;
    put_member(alloc, out, "into_account", account)?;
    put_member(alloc, out, "of_token", token)?;
    end_with_number(out, "that_deposits", amount)
}

fn put_choice(
    alloc: Global,
    out: &mut Writer,
    id: &ChoiceId,
    number: &i128,
) -> Result<(), WriteFault>
    ensures put { PutsInput result out.old out.new (Input.Choice id.now number.now) }
    ensures err { OnErr result (Keeps out.old out.new) }
{
    out.begin_object()?;
    put_member(alloc, out, "for_choice_id", id)?;
    end_with_number(out, "input_that_chooses_num", number)
}

pub(crate) fn put_input(alloc: Global, out: &mut Writer, input: &Input) -> Result<(), WriteFault>
    ensures put { PutsInput result out.old out.new input.now }
    ensures err { OnErr result (Keeps out.old out.new) }
    ensures symbols { OnOk result (InputSymbols input.now) }
{
    match input {
        Input::Deposit(account, party, token, amount) => {
            put_deposit(alloc, out, account, party, token, amount)
        }
        Input::Choice(id, number) => put_choice(alloc, out, id, number),
        Input::Notify => {
            word(out, "input_notify")?;
            Ok(())
        }
    }
}

fn put_inputs(alloc: Global, out: &mut Writer, inputs: &Items<Input>) -> Result<(), WriteFault>
    ensures put { PutsFitting result out.old out.new (list_all input_fits inputs.now) (array (items_of (map input_json inputs.now))) }
    ensures err { OnErr result (Keeps out.old out.new) }
    ensures symbols { OnOk result (Each InputSymbols inputs.now) }
{
    out.begin_array()?;
    for input in inputs.as_slice() {
        put_input(alloc, out, input)?;
    }
    out.end_array()?;
    Ok(())
}

// It does nothing: its clause says that a time fits.
fn is_time(time: &i64)
    ensures { time_fits time.now ≡ true }
{
    let _value = *time;
}

fn put_interval(alloc: Global, out: &mut Writer, interval: &Interval) -> Result<(), Memory>
    ensures put { OnOk result (Puts out.old out.new (interval_json interval.now)) }
    ensures err { OnErr result (Keeps out.old out.new) }
    ensures from { OnOk result (time_fits interval.now.from ≡ true) }
    ensures to { OnOk result (time_fits interval.now.to ≡ true) }
{
    // touch: both fit
    is_time(&interval.from);
    is_time(&interval.to);
    out.begin_object()?;
    put_member(alloc, out, "from", &interval.from)?;
    end_with_one(alloc, out, "to", &interval.to)
}

pub(crate) fn put_transaction(
    alloc: Global,
    out: &mut Writer,
    transaction: &Transaction,
) -> Result<(), WriteFault>
    ensures put { PutsFitting result out.old out.new (transaction_fits transaction.now) (transaction_json transaction.now) }
    ensures err { OnErr result (Keeps out.old out.new) }
    ensures symbols { OnOk result (Each InputSymbols transaction.now.inputs) }
    ensures from { OnOk result (time_fits transaction.now.interval.from ≡ true) }
    ensures to { OnOk result (time_fits transaction.now.interval.to ≡ true) }
{
    out.begin_object()?;
    out.key("tx_inputs")?;
    put_inputs(alloc, out, &transaction.inputs)?;
    out.key("tx_interval")?;
    put_interval(alloc, out, &transaction.interval)?;
    out.end_object()?;
    Ok(())
}
