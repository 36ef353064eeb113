//! Terms: what is written as one JSON value of its own, and its compact text.
ghost use Rattle.std.specs.Prelude.{◌≡◌, IfOk, OnOk, OnErr, string_bytes};
ghost use Rattle.hex.specs.Hex.{encode_lower};
ghost use Rattle.serde_json.specs.Data.{Data, string};
ghost use Rattle.serde_json.specs.Written.{compact_text};
ghost use Rattle.json_write_contracts.specs.Tokens.{Keeps, Puts};
ghost use Rattle.json_write_contracts.specs.WrittenNames as written_names;

use crate::members::put_pair;
use crate::name_forms::{put_bytes, put_choice_id, put_party, put_payee, put_text, put_token};
use crate::numbers::{put_amount, put_time};
use contract::{Account, Bytes, ChoiceId, Memory, Party, Payee, Text, Token};
use json::Writer;
use std::alloc::Global;

/// What is written as one JSON value, in the form in which it is read.
pub trait Term {
    /// The value that stands for it.
    ghost json: { Self → Data };

    /// Writes it behind what was written, which stays where it fails, with some tokens behind it or none.
    fn put(&self, alloc: Global, out: &mut Writer) -> Result<(), Memory>
        ensures put { OnOk result (Puts out.old out.new (json self.now)) }
        ensures err { OnErr result (Keeps out.old out.new) };
}

/// The compact text of a term, its hexadecimal digits in lower case. Answers `Memory` only where a growth was refused.
pub fn term_text<T: Term>(alloc: Global, term: &T) -> Result<String, Memory>
    ensures { IfOk result (λ text. string_bytes text ≡ compact_text (T.json term.now)) }
{
    let mut out = Writer::new(Vec::new(alloc));
    term.put(alloc, &mut out)?;
    match String::from_utf8(out.into_inner()) {
        Ok(text) => Ok(text),
        Err(_) => unreachable!(),
    }
}

impl Term for Party {
    ghost json = { written_names.party_json };

    fn put(&self, _alloc: Global, out: &mut Writer) -> Result<(), Memory> {
        put_party(out, self)
    }
}

impl Term for Token {
    ghost json = { written_names.token_json };

    fn put(&self, alloc: Global, out: &mut Writer) -> Result<(), Memory> {
        put_token(alloc, out, self)
    }
}

impl Term for ChoiceId {
    ghost json = { written_names.choice_id_json };

    fn put(&self, _alloc: Global, out: &mut Writer) -> Result<(), Memory> {
        put_choice_id(out, self)
    }
}

impl Term for Payee {
    ghost json = { written_names.payee_json };

    fn put(&self, _alloc: Global, out: &mut Writer) -> Result<(), Memory> {
        put_payee(out, self)
    }
}

impl Term for Text {
    ghost json = { string };

    fn put(&self, _alloc: Global, out: &mut Writer) -> Result<(), Memory> {
        put_text(out, self)
    }
}

// An account is the list of its owner and its token.
impl Term for Account {
    ghost json = { λ account. written_names.pair_json (written_names.party_json account.owner) (written_names.token_json account.token) };

    fn put(&self, alloc: Global, out: &mut Writer) -> Result<(), Memory> {
        put_pair(alloc, out, &self.owner, &self.token)
    }
}

// Bytes are a text of lower-case hexadecimal.
impl Term for Bytes {
    ghost json = { λ bytes. string (encode_lower bytes) };

    fn put(&self, alloc: Global, out: &mut Writer) -> Result<(), Memory> {
        put_bytes(alloc, out, self)
    }
}

// An amount of any size.
impl Term for i128 {
    ghost json = { written_names.wide_json };

    fn put(&self, alloc: Global, out: &mut Writer) -> Result<(), Memory> {
        put_amount(alloc, out, self)
    }
}

// A time.
impl Term for i64 {
    ghost json = { written_names.number_json };

    fn put(&self, _alloc: Global, out: &mut Writer) -> Result<(), Memory> {
        put_time(out, *self)
    }
}

// A word of its own.
impl Term for &str {
    ghost json = { λ word. string word.now };

    fn put(&self, _alloc: Global, out: &mut Writer) -> Result<(), Memory> {
        out.string(self)
    }
}
