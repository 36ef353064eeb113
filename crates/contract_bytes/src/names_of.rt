//! Parties, tokens, choice ids, payees and bounds.
ghost use Rattle.std.specs.Prelude.{◌≡◌, ◌++◌, OnOk, OnErr};
ghost use Rattle.contract_bytes.specs.Names.{party_bytes, token_bytes, choice_id_bytes, payee_bytes, bound_bytes, PartyFits, TokenFits, ChoiceIdFits, PayeeFits, BoundFits};
ghost use Rattle.contract_bytes.specs.Writing.{AppendsFront};

use crate::number::{put_byte, put_bytes, put_number, put_text};
use contract::{Bound, ChoiceId, Memory, Party, Payee, Token};

/// Appends a party: a tag, then its text.
pub fn put_party(out: &mut Vec<u8>, party: &Party) -> Result<(), Memory>
    ensures spelling { OnOk result (out.new.items ≡ out.old.items ++ party_bytes party.now) }
    ensures fits { OnOk result (PartyFits party.now) }
    ensures err { OnErr result (AppendsFront (party_bytes party.now) out.old.items out.new.items) }
{
    match party {
        Party::Address(text) => {
            put_byte(out, 0)?;
            put_text(out, text)
        }
        Party::Role(name) => {
            put_byte(out, 1)?;
            put_text(out, name)
        }
    }
}

/// Appends a token: its currency symbol, then its name.
#[tactic(auto, using(std::proofs::Common::append_assoc))]
pub fn put_token(out: &mut Vec<u8>, token: &Token) -> Result<(), Memory>
    ensures spelling { OnOk result (out.new.items ≡ out.old.items ++ token_bytes token.now) }
    ensures fits { OnOk result (TokenFits token.now) }
    ensures err { OnErr result (AppendsFront (token_bytes token.now) out.old.items out.new.items) }
{
    put_bytes(out, &token.symbol)?;
    put_text(out, &token.name)
}

/// Appends a choice id: its name, then its owner.
#[tactic(auto, using(std::proofs::Common::append_assoc))]
pub fn put_choice_id(out: &mut Vec<u8>, id: &ChoiceId) -> Result<(), Memory>
    ensures spelling { OnOk result (out.new.items ≡ out.old.items ++ choice_id_bytes id.now) }
    ensures fits { OnOk result (ChoiceIdFits id.now) }
    ensures err { OnErr result (AppendsFront (choice_id_bytes id.now) out.old.items out.new.items) }
{
    put_text(out, &id.name)?;
    put_party(out, &id.owner)
}

/// Appends a payee: a tag, then its party.
pub fn put_payee(out: &mut Vec<u8>, payee: &Payee) -> Result<(), Memory>
    ensures spelling { OnOk result (out.new.items ≡ out.old.items ++ payee_bytes payee.now) }
    ensures fits { OnOk result (PayeeFits payee.now) }
    ensures err { OnErr result (AppendsFront (payee_bytes payee.now) out.old.items out.new.items) }
{
    match payee {
        Payee::Account(owner) => {
            put_byte(out, 0)?;
            put_party(out, owner)
        }
        Payee::Party(party) => {
            put_byte(out, 1)?;
            put_party(out, party)
        }
    }
}

/// Appends a bound: its lower end, then its upper one.
pub fn put_bound(out: &mut Vec<u8>, bound: &Bound) -> Result<(), Memory>
    ensures spelling { OnOk result (out.new.items ≡ out.old.items ++ bound_bytes bound.now) }
    ensures fits { OnOk result (BoundFits bound.now) }
    ensures err { OnErr result (AppendsFront (bound_bytes bound.now) out.old.items out.new.items) }
{
    put_number(out, bound.from)?;
    put_number(out, bound.to)
}
