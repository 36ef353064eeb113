//! That what is in memory fits its spelling: its numbers, times and lengths have the room that the spelling gives them.
//! Nothing is spelled here: each of these only reads what it is lent.
ghost use Rattle.std.specs.Prelude.{◌<◌, ◌^◌, All};
ghost use Rattle.machine.specs.ContractBytes.Numbers.{NumberFits, TimeFits, TextFits, ListFits};
ghost use Rattle.machine.specs.ContractBytes.Names.{PartyFits, TokenFits, ChoiceIdFits, HoldingFits};
ghost use Rattle.machine.specs.ContractBytes.Inputs.{InputFits};
ghost use Rattle.machine.specs.ContractBytes.States.{MoneyFits, ChosenFits, BoundValueFits, StateFits};
ghost use Rattle.machine.specs.Spelling.{DatumFits};
ghost use Rattle.eutxo_types.specs.Fitting.{PlaceFits, IdFits, ReferenceFits, RedeemerFits, SpendFits, LockFits, AmountFits, OutputFits, TxFits};

use crate::lock::Lock;
use crate::output::Output;
use crate::output_ref::OutputRef;
use crate::redeemer::Redeemer;
use crate::spend::Spend;
use crate::tx::Tx;
use bundle::Bundle;
use contract::{Account, Bytes, ChoiceId, Input, Party, State, Text, Token};
use machine::Datum;

/// What fits its spelling wherever it is in memory.
trait InMemory {
    /// Whether it fits.
    ghost Fits: { Self → Type 0 };

    /// It does. This only reads it.
    fn see(&self)
        ensures { Fits self.now };
}

fn see_each<T: InMemory>(items: &[T])
    ensures { All T.Fits items.now }
{
    for item in items {
        item.see();
    }
}

fn see_list<T: InMemory>(items: &[T])
    ensures { ListFits T.Fits items.now }
{
    let _ = items.len();
    see_each(items)
}

// ---- numbers, times, texts and ids

fn see_number(number: i128)
    ensures { NumberFits number }
{
    let _ = number;
}

fn see_time(time: i64)
    ensures { TimeFits time }
{
    let _ = time;
}

fn see_place(place: u64)
    ensures { PlaceFits place }
{
    let _ = place;
}

fn see_counted(bytes: &[u8])
    ensures { TextFits bytes.now }
{
    let _ = bytes.len();
}

fn see_text(text: &Text)
    ensures { TextFits text.now }
{
    see_counted(text.as_str().as_bytes())
}

fn see_bytes(bytes: &Bytes)
    ensures { TextFits bytes.now }
{
    see_counted(bytes.as_slice())
}

fn see_id(id: &[u8; 32])
    ensures { IdFits id.now }
{
    let _ = id.as_slice();
}

// ---- names

fn see_party(party: &Party)
    ensures { PartyFits party.now }
{
    match party {
        Party::Address(text) => see_text(text),
        Party::Role(name) => see_text(name),
    }
}

fn see_token(token: &Token)
    ensures { TokenFits token.now }
{
    see_bytes(&token.symbol);
    see_text(&token.name)
}

fn see_choice_id(id: &ChoiceId)
    ensures { ChoiceIdFits id.now }
{
    see_text(&id.name);
    see_party(&id.owner)
}

impl InMemory for Text {
    ghost Fits = { TextFits };

    fn see(&self) {
        see_text(self)
    }
}

impl InMemory for (Token, i128) {
    ghost Fits = { HoldingFits };

    fn see(&self) {
        see_token(&self.0);
        see_number(self.1)
    }
}

// ---- states and data

impl InMemory for (Account, i128) {
    ghost Fits = { MoneyFits };

    fn see(&self) {
        see_party(&self.0.owner);
        see_token(&self.0.token);
        see_number(self.1)
    }
}

impl InMemory for (ChoiceId, i128) {
    ghost Fits = { ChosenFits };

    fn see(&self) {
        see_choice_id(&self.0);
        see_number(self.1)
    }
}

impl InMemory for (Text, i128) {
    ghost Fits = { BoundValueFits };

    fn see(&self) {
        see_text(&self.0);
        see_number(self.1)
    }
}

fn see_state(state: &State)
    ensures { StateFits state.now }
{
    see_list(state.accounts());
    see_list(state.choices());
    see_list(state.bound_values());
    see_time(state.min_time())
}

fn see_number_of_cont(number: u32)
    ensures { number < 2 ^ 32 }
{
    let _ = number;
}

impl InMemory for Datum {
    ghost Fits = { DatumFits };

    fn see(&self) {
        see_number_of_cont(self.cont.0);
        see_state(&self.state)
    }
}

// ---- inputs and what they spend

impl InMemory for Input {
    ghost Fits = { InputFits };

    fn see(&self) {
        match self {
            Input::Deposit(account, party, token, amount) => {
                see_party(account);
                see_party(party);
                see_token(token);
                see_number(*amount)
            }
            Input::Choice(id, number) => {
                see_choice_id(id);
                see_number(*number)
            }
            Input::Notify => {}
        }
    }
}

fn see_reference(reference: &OutputRef)
    ensures { ReferenceFits reference.now }
{
    match reference {
        OutputRef::Genesis { index } => see_place(*index),
        OutputRef::Made { id, index } => {
            see_id(id);
            see_place(*index)
        }
    }
}

fn see_redeemer(redeemer: &Redeemer)
    ensures { RedeemerFits redeemer.now }
{
    match redeemer {
        Redeemer::None => {}
        Redeemer::Claim => {}
        Redeemer::Step(inputs) => see_list(inputs.as_slice()),
    }
}

impl InMemory for Spend {
    ghost Fits = { SpendFits };

    fn see(&self) {
        see_reference(&self.reference);
        see_redeemer(&self.redeemer)
    }
}

// ---- outputs

fn see_lock(lock: &Lock)
    ensures { LockFits lock.now }
{
    match lock {
        Lock::Key(address) => see_text(address),
        Lock::Payout { currency, role } => {
            see_bytes(currency);
            see_text(role)
        }
        Lock::Contract { script, datum } => {
            see_id(script);
            see_id(datum)
        }
    }
}

fn see_amount(amount: &Bundle)
    ensures { AmountFits amount.now }
{
    see_list(amount.entries())
}

impl InMemory for Output {
    ghost Fits = { OutputFits };

    fn see(&self) {
        see_lock(&self.lock);
        see_amount(&self.amount)
    }
}

/// A transaction fits its spelling, as each does that is in memory. It only reads the transaction, and takes no memory.
pub fn fits_spelling(tx: &Tx)
    ensures { TxFits tx.now }
{
    see_list(tx.inputs.as_slice());
    see_list(tx.outputs.as_slice());
    see_time(tx.interval.from);
    see_time(tx.interval.to);
    see_list(tx.signers.as_slice());
    see_list(tx.datums.as_slice())
}
