//! Parties, tokens, choice ids, payees and bounds as JSON values.
ghost use Rattle.names.specs.Collections.Answers.{Aside};
ghost use Rattle.json_read_names.specs.ReadsNames as reads;

use crate::fault::JsonFault;
use crate::look::{has, has_two, member, read_bytes, read_text};
use crate::numbers::read_whole;
use json_tree::JsonValue;
use names::{Bound, ChoiceId, Party, Payee, Token};
use std::alloc::Global;

/// The party that a JSON value stands for.
pub fn party_from_json<J: JsonValue>(alloc: Global, json: &J) -> Result<Party, JsonFault>
    ensures reading { Aside JsonFault.Memory result (reads.party (J.json json.now)) }
{
    if has(json, "address") {
        Ok(Party::Address(read_text(alloc, member(json, "address")?)?))
    } else {
        Ok(Party::Role(read_text(alloc, member(json, "role_token")?)?))
    }
}

/// The token that a JSON value stands for.
pub fn token_from_json<J: JsonValue>(alloc: Global, json: &J) -> Result<Token, JsonFault>
    ensures reading { Aside JsonFault.Memory result (reads.token (J.json json.now)) }
{
    if !has_two(json, "currency_symbol", "token_name") {
        return Err(JsonFault::NoForm);
    }
    let symbol = read_bytes(alloc, member(json, "currency_symbol")?)?;
    let name = read_text(alloc, member(json, "token_name")?)?;
    Ok(Token { symbol, name })
}

/// The choice id that a JSON value stands for.
pub fn choice_id_from_json<J: JsonValue>(alloc: Global, json: &J) -> Result<ChoiceId, JsonFault>
    ensures reading { Aside JsonFault.Memory result (reads.choice_id (J.json json.now)) }
{
    if !has_two(json, "choice_name", "choice_owner") {
        return Err(JsonFault::NoForm);
    }
    let name = read_text(alloc, member(json, "choice_name")?)?;
    let owner = party_from_json(alloc, member(json, "choice_owner")?)?;
    Ok(ChoiceId { name, owner })
}

/// The payee that a JSON value stands for.
pub fn payee_from_json<J: JsonValue>(alloc: Global, json: &J) -> Result<Payee, JsonFault>
    ensures reading { Aside JsonFault.Memory result (reads.payee (J.json json.now)) }
{
    if has(json, "account") {
        Ok(Payee::Account(party_from_json(alloc, member(json, "account")?)?))
    } else {
        Ok(Payee::Party(party_from_json(alloc, member(json, "party")?)?))
    }
}

/// The bound that a JSON value stands for: two whole numbers from -2^63 to 2^64 - 1.
pub fn bound_from_json<J: JsonValue>(json: &J) -> Result<Bound, JsonFault>
    ensures reading { Aside JsonFault.Memory result (reads.bound (J.json json.now)) }
{
    if !has_two(json, "from", "to") {
        return Err(JsonFault::NoForm);
    }
    let from = read_whole(member(json, "from")?)?;
    let to = read_whole(member(json, "to")?)?;
    Ok(Bound { from, to })
}
