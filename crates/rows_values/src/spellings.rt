//! The bytes of values, and bytes that are put behind others, part by part.
use crate::forms::{Form, form_of};
use crate::sorts::{named, no_such_sort};
use contract::{Bound, ChoiceId, Contract, Input, Items, Party, Payee, State, Text, Token};
use machine::contract_bytes::{
    encode_contract, encode_input, encode_party, encode_state, encode_token, put_bound, put_byte,
    put_bytes, put_choice_id, put_input, put_length, put_list, put_number, put_party, put_payee,
    put_state, put_text, put_time, put_token,
};
use rows_text::{RowFault, bytes, done, first, number, put, text};
use std::alloc::{AllocError, Global};

/// A sort of values that has a spelling in bytes.
trait Spelled: Form {
    fn spell(&self, alloc: Global) -> Result<Vec<u8>, AllocError>;
}

/// A sort of values whose bytes are put behind others.
trait Part: Form {
    fn put_part(&self, out: &mut Vec<u8>) -> Result<(), AllocError>;
}

/// The bytes of a value in hexadecimal.
pub fn spell_row(alloc: Global, sort: &str, text: &[u8]) -> Result<Vec<u8>, RowFault> {
    let told = match sort {
        "contract" => spelling::<Contract>(alloc, text),
        "party" => spelling::<Party>(alloc, text),
        "token" => spelling::<Token>(alloc, text),
        "input" => spelling::<Input>(alloc, text),
        "state" => spelling::<State>(alloc, text),
        _ => no_such_sort(alloc),
    };
    Ok(told?)
}

fn spelling<T: Spelled>(alloc: Global, text: &[u8]) -> Result<Vec<u8>, AllocError> {
    match form_of::<T>(alloc, text) {
        Ok(thing) => in_hex(alloc, thing.spell(alloc)?.as_slice()),
        Err(fault) => named(alloc, fault),
    }
}

/// Bytes in hexadecimal.
pub fn in_hex(alloc: Global, bytes: &[u8]) -> Result<Vec<u8>, AllocError> {
    Ok(hex::encode(alloc, bytes)?.into_bytes())
}

/// The bytes of a part, which is given in JSON, as a number, a text, or bytes in hexadecimal.
pub fn put_row(alloc: Global, rest: &str) -> Result<Vec<u8>, RowFault> {
    let (sort, rest) = first(rest);
    let mut out = Vec::new(alloc);
    put_sort(alloc, &mut out, sort, rest)?;
    Ok(in_hex(alloc, out.as_slice())?)
}

fn put_sort(alloc: Global, out: &mut Vec<u8>, sort: &str, rest: &str) -> Result<(), RowFault> {
    match sort {
        "party" => put_read::<Party>(alloc, out, rest),
        "token" => put_read::<Token>(alloc, out, rest),
        "choice_id" => put_read::<ChoiceId>(alloc, out, rest),
        "payee" => put_read::<Payee>(alloc, out, rest),
        "bound" => put_read::<Bound>(alloc, out, rest),
        "input" => put_read::<Input>(alloc, out, rest),
        "state" => put_read::<State>(alloc, out, rest),
        _ => put_word(alloc, out, sort, rest),
    }
}

fn put_read<T: Part>(alloc: Global, out: &mut Vec<u8>, rest: &str) -> Result<(), RowFault> {
    let part = form_of::<T>(alloc, rest.as_bytes())?;
    part.put_part(out)?;
    Ok(())
}

fn put_word(alloc: Global, out: &mut Vec<u8>, sort: &str, rest: &str) -> Result<(), RowFault> {
    match sort {
        "byte" => put_byte(out, number(rest)?)?,
        "length" => put_length(out, number(rest)?)?,
        "number" => put_number(out, number(rest)?)?,
        "time" => put_time(out, number(rest)?)?,
        "text" => put_text(out, &text(alloc, rest)?)?,
        "bytes" => put_bytes(out, &bytes(alloc, rest)?)?,
        "texts" => put_list(out, texts(alloc, rest)?.as_slice())?,
        _ => return Err(RowFault::NoSuchRow),
    }
    Ok(())
}

fn texts(alloc: Global, rest: &str) -> Result<Items<Text>, RowFault> {
    let mut texts = Items::new(alloc);
    let put = put_texts(alloc, &mut texts, rest);
    done(texts, put)
}

fn put_texts(alloc: Global, texts: &mut Items<Text>, rest: &str) -> Result<(), RowFault> {
    for word in rest.split_whitespace() {
        put(texts, text(alloc, word))?;
    }
    Ok(())
}

impl Part for Party {
    fn put_part(&self, out: &mut Vec<u8>) -> Result<(), AllocError> {
        put_party(out, self)
    }
}

impl Part for Token {
    fn put_part(&self, out: &mut Vec<u8>) -> Result<(), AllocError> {
        put_token(out, self)
    }
}

impl Part for ChoiceId {
    fn put_part(&self, out: &mut Vec<u8>) -> Result<(), AllocError> {
        put_choice_id(out, self)
    }
}

impl Part for Payee {
    fn put_part(&self, out: &mut Vec<u8>) -> Result<(), AllocError> {
        put_payee(out, self)
    }
}

impl Part for Bound {
    fn put_part(&self, out: &mut Vec<u8>) -> Result<(), AllocError> {
        put_bound(out, self)
    }
}

impl Part for Input {
    fn put_part(&self, out: &mut Vec<u8>) -> Result<(), AllocError> {
        put_input(out, self)
    }
}

impl Part for State {
    fn put_part(&self, out: &mut Vec<u8>) -> Result<(), AllocError> {
        put_state(out, self)
    }
}

impl Spelled for Contract {
    fn spell(&self, alloc: Global) -> Result<Vec<u8>, AllocError> {
        encode_contract(alloc, self)
    }
}

impl Spelled for Party {
    fn spell(&self, alloc: Global) -> Result<Vec<u8>, AllocError> {
        encode_party(alloc, self)
    }
}

impl Spelled for Token {
    fn spell(&self, alloc: Global) -> Result<Vec<u8>, AllocError> {
        encode_token(alloc, self)
    }
}

impl Spelled for Input {
    fn spell(&self, alloc: Global) -> Result<Vec<u8>, AllocError> {
        encode_input(alloc, self)
    }
}

impl Spelled for State {
    fn spell(&self, alloc: Global) -> Result<Vec<u8>, AllocError> {
        encode_state(alloc, self)
    }
}
