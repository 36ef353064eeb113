//! Bounds and actions.
//! Where a call fails, what was written before it stays, and behind it stand some tokens or none.
ghost use Rattle.std.specs.Prelude.{map, OnOk, OnErr};
ghost use Rattle.std.specs.List.{list_all};
ghost use Rattle.serde_json.specs.Data.{array};
ghost use Rattle.serde_json.specs.View.{items_of};
ghost use Rattle.hex.specs.Hex.{IsBytes};
ghost use Rattle.contract.specs.Tree.{value_tree, observation_tree, action_tree, deposit, choice, notify};
ghost use Rattle.json_write_contracts.specs.Symbols.{ValueSymbols, ObservationSymbols, ActionSymbols};
ghost use Rattle.json_write_contracts.specs.Members.{member_tokens, AddsFitting};
ghost use Rattle.json_write_contracts.specs.Tokens.{Keeps, PutsFitting};
ghost use Rattle.json_write_contracts.specs.Puts.{PutsAction};
ghost use Rattle.json_write_contracts.specs.WrittenNames.{number_fits, number_json};
ghost use Rattle.json_write_contracts.specs.WrittenContract.{bound_fits, bound_json};

use crate::fault::WriteFault;
use crate::members::{end_object, end_with_one, end_with_three};
use crate::name_forms::symbol_is_bytes;
use crate::numbers::put_number;
use crate::values::{put_observation, put_value};
use contract::{Action, Bound, ChoiceId, Items, Observation, Party, Token, Value};
use json::Writer;
use std::alloc::Global;

// A member that is a number.
fn number_member(out: &mut Writer, key: &str, n: &i128) -> Result<(), WriteFault>
    ensures put { AddsFitting result out.old out.new (number_fits n.now) (member_tokens key.now (number_json n.now)) }
    ensures err { OnErr result (Keeps out.old out.new) }
{
    out.key(key)?;
    put_number(out, *n)
}

/// Writes a bound. An end that doesn't lie from -2^63 to 2^64 - 1 is out of range.
pub fn put_bound(out: &mut Writer, bound: &Bound) -> Result<(), WriteFault>
    ensures put { PutsFitting result out.old out.new (bound_fits bound.now) (bound_json bound.now) }
    ensures err { OnErr result (Keeps out.old out.new) }
{
    out.begin_object()?;
    number_member(out, "from", &bound.from)?;
    number_member(out, "to", &bound.to)?;
    end_object(out)
}

fn put_bounds(out: &mut Writer, bounds: &Items<Bound>) -> Result<(), WriteFault>
    ensures put { PutsFitting result out.old out.new (list_all bound_fits bounds.now) (array (items_of (map bound_json bounds.now))) }
    ensures err { OnErr result (Keeps out.old out.new) }
{
    out.begin_array()?;
    for bound in bounds.as_slice() {
        put_bound(out, bound)?;
    }
    out.end_array()?;
    Ok(())
}

fn put_deposit(
    alloc: Global,
    out: &mut Writer,
    account: &Party,
    party: &Party,
    token: &Token,
    value: &Value,
) -> Result<(), WriteFault>
    ensures put { PutsAction result out.old out.new (deposit account.now party.now token.now (value_tree value.now)) }
    ensures err { OnErr result (Keeps out.old out.new) }
    ensures value_symbols { OnOk result (ValueSymbols (value_tree value.now)) }
    ensures symbol { OnOk result (IsBytes token.now.symbol) }
{
    // touch: the symbol is bytes
    symbol_is_bytes(token);
    out.begin_object()?;
    out.key("deposits")?;
    put_value(alloc, out, value)?;
    Ok(end_with_three(
        alloc,
        out,
        "into_account",
        account,
        "of_token",
        token,
        "party",
        party,
    )?)
}

fn put_choice(
    alloc: Global,
    out: &mut Writer,
    id: &ChoiceId,
    bounds: &Items<Bound>,
) -> Result<(), WriteFault>
    ensures put { PutsAction result out.old out.new (choice id.now bounds.now) }
    ensures err { OnErr result (Keeps out.old out.new) }
{
    out.begin_object()?;
    out.key("choose_between")?;
    put_bounds(out, bounds)?;
    Ok(end_with_one(alloc, out, "for_choice", id)?)
}

fn put_notify(alloc: Global, out: &mut Writer, observation: &Observation) -> Result<(), WriteFault>
    ensures put { PutsAction result out.old out.new (notify (observation_tree observation.now)) }
    ensures err { OnErr result (Keeps out.old out.new) }
    ensures symbols { OnOk result (ObservationSymbols (observation_tree observation.now)) }
{
    out.begin_object()?;
    out.key("notify_if")?;
    put_observation(alloc, out, observation)?;
    end_object(out)
}

/// Writes an action. A number in it that doesn't lie from -2^63 to 2^64 - 1 is out of range.
pub fn put_action(alloc: Global, out: &mut Writer, action: &Action) -> Result<(), WriteFault>
    ensures put { PutsAction result out.old out.new (action_tree action.now) }
    ensures err { OnErr result (Keeps out.old out.new) }
    ensures symbols { OnOk result (ActionSymbols (action_tree action.now)) }
{
    match action {
        Action::Deposit(account, party, token, value) => {
            put_deposit(alloc, out, account, party, token, value)
        }
        Action::Choice(id, bounds) => put_choice(alloc, out, id, bounds),
        Action::Notify(observation) => put_notify(alloc, out, observation),
    }
}
