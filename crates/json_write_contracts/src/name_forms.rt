//! Texts, bytes, parties, tokens, choice ids and payees.
//! Where a call fails, what was written before it stays, and behind it stand some tokens or none.
ghost use Rattle.std.specs.Prelude.{◌≡◌, OnOk, OnErr};
ghost use Rattle.serde_json.specs.Data.{string, no_members, member};
ghost use Rattle.hex.specs.Hex.{IsBytes, encode_lower};
ghost use Rattle.json_write_contracts.specs.Members.{Ends};
ghost use Rattle.json_write_contracts.specs.Tokens.{Keeps, Puts};
ghost use Rattle.json_write_contracts.specs.WrittenNames as written_names;

use contract::{Bytes, ChoiceId, Memory, Party, Payee, Text, Token};
use json::Writer;
use std::alloc::Global;

/// Writes a text.
pub fn put_text(out: &mut Writer, text: &Text) -> Result<(), Memory>
    ensures put { OnOk result (Puts out.old out.new (string text.now)) }
    ensures err { OnErr result (Keeps out.old out.new) }
{
    out.string(text.as_str())
}

/// Writes bytes as a text of lower-case hexadecimal.
pub fn put_bytes(alloc: Global, out: &mut Writer, bytes: &Bytes) -> Result<(), Memory>
    ensures put { OnOk result (Puts out.old out.new (string (encode_lower bytes.now))) }
    ensures err { OnErr result (Keeps out.old out.new) }
    ensures bytes { IsBytes bytes.now }
{
    let digits = hex::encode(alloc, bytes.as_slice())?;
    out.string(digits.as_str())
}

/// It does nothing: its clause says what a proof would forget, that a token's currency symbol is made of bytes.
pub fn symbol_is_bytes(token: &Token)
    ensures { IsBytes token.now.symbol }
{
    let _ = token.symbol.as_slice();
}

// The last member of an object, a text, and the object's end.
fn end_with_text(out: &mut Writer, key: &str, text: &Text) -> Result<(), Memory>
    ensures put { OnOk result (Ends out.old out.new (member key.now (string text.now) no_members)) }
    ensures err { OnErr result (Keeps out.old out.new) }
{
    out.key(key)?;
    put_text(out, text)?;
    out.end_object()
}

// An object of one text.
fn put_one_text(out: &mut Writer, key: &str, text: &Text) -> Result<(), Memory>
    ensures put { OnOk result (Puts out.old out.new (written_names.one key.now (string text.now))) }
    ensures err { OnErr result (Keeps out.old out.new) }
{
    out.begin_object()?;
    end_with_text(out, key, text)
}

/// Writes a party.
pub fn put_party(out: &mut Writer, party: &Party) -> Result<(), Memory>
    ensures put { OnOk result (Puts out.old out.new (written_names.party_json party.now)) }
    ensures err { OnErr result (Keeps out.old out.new) }
{
    match party {
        Party::Address(text) => put_one_text(out, "address", text),
        Party::Role(text) => put_one_text(out, "role_token", text),
    }
}

// The last member of an object, a party, and the object's end.
fn end_with_party(out: &mut Writer, key: &str, party: &Party) -> Result<(), Memory>
    ensures put { OnOk result (Ends out.old out.new (member key.now (written_names.party_json party.now) no_members)) }
    ensures err { OnErr result (Keeps out.old out.new) }
{
    out.key(key)?;
    put_party(out, party)?;
    out.end_object()
}

// An object of one party.
fn put_one_party(out: &mut Writer, key: &str, party: &Party) -> Result<(), Memory>
    ensures put { OnOk result (Puts out.old out.new (written_names.one key.now (written_names.party_json party.now))) }
    ensures err { OnErr result (Keeps out.old out.new) }
{
    out.begin_object()?;
    end_with_party(out, key, party)
}

/// Writes a token, its currency symbol in lower-case hexadecimal.
pub fn put_token(alloc: Global, out: &mut Writer, token: &Token) -> Result<(), Memory>
    ensures put { OnOk result (Puts out.old out.new (written_names.token_json token.now)) }
    ensures err { OnErr result (Keeps out.old out.new) }
    ensures symbol { OnOk result (IsBytes token.now.symbol) }
{
    out.begin_object()?;
    out.key("currency_symbol")?;
    put_bytes(alloc, out, &token.symbol)?;
    end_with_text(out, "token_name", &token.name)
}

/// Writes a choice id.
pub fn put_choice_id(out: &mut Writer, id: &ChoiceId) -> Result<(), Memory>
    ensures put { OnOk result (Puts out.old out.new (written_names.choice_id_json id.now)) }
    ensures err { OnErr result (Keeps out.old out.new) }
{
    out.begin_object()?;
    out.key("choice_name")?;
    put_text(out, &id.name)?;
    end_with_party(out, "choice_owner", &id.owner)
}

/// Writes a payee.
pub fn put_payee(out: &mut Writer, payee: &Payee) -> Result<(), Memory>
    ensures put { OnOk result (Puts out.old out.new (written_names.payee_json payee.now)) }
    ensures err { OnErr result (Keeps out.old out.new) }
{
    match payee {
        Payee::Account(owner) => put_one_party(out, "account", owner),
        Payee::Party(party) => put_one_party(out, "party", party),
    }
}
