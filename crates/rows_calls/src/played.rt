//! Calls.
use crate::desk::Desk;
use crate::taking::Calls;
use chain::Call;
use contract::{Bytes, Contract, Items, TryClone};
use contract_json::read_contract;
use ledger::{Ask, PayoutLock};
use rows_text::{
    Known, RowFault, Sent, both, bytes, done, first, named_of, nested, nothing, number, parts, put,
    put_in, reference_of, replace, sent_of, sides, take_back, text, wide,
};
use std::alloc::Global;

/// Plays a call, from its word and what follows: what is printed for its reply. Where it is refused memory, what is written stays.
pub fn played<C: Calls>(
    alloc: Global,
    calls: &mut C,
    desk: &mut Desk,
    word: &str,
    rest: &str,
) -> Result<String, RowFault> {
    let (seat, rest) = first(rest);
    let seat = number(seat)?;
    match word {
        "publish" => publish(alloc, calls, desk, seat, rest),
        "submit" | "enqueue" => hand_in(alloc, calls, desk, seat, word, rest),
        "enqueues" => enqueues(alloc, calls, desk, seat, number(rest)?),
        _ => {
            let call = call_of(alloc, &desk.known, word, rest)?;
            calls.call(alloc, desk, seat, call)
        }
    }
}

fn call_of(alloc: Global, known: &Known, word: &str, rest: &str) -> Result<Call, RowFault> {
    match word {
        "nested" => Ok(publish_made(alloc, nested(alloc, number(rest)?)?)),
        "wide" => Ok(publish_made(alloc, wide(alloc, number(rest)?)?)),
        "advance" => Ok(Call::Advance(number(rest)?)),
        "look" => Ok(Call::Look(ask_of(alloc, &known.sent, rest)?)),
        "round" => Ok(Call::Round(number(rest)?)),
        _ => Err(RowFault::NoSuchRow),
    }
}

// Names what is published, from `NAME CURRENCY CONTRACT`, and makes the call.
fn publish<C: Calls>(
    alloc: Global,
    calls: &mut C,
    desk: &mut Desk,
    seat: u64,
    rest: &str,
) -> Result<String, RowFault> {
    let named = named_of(alloc, &desk.known, rest);
    put_in(&mut desk.known.published, named)?;
    let call = publish_of(alloc, &desk.known, rest)?;
    let told = calls.call(alloc, desk, seat, call);
    take_back(&mut desk.known.published, &told);
    told
}

fn publish_of(alloc: Global, known: &Known, rest: &str) -> Result<Call, RowFault> {
    let (_name, rest) = parts(rest)?;
    let (currency, contract) = parts(rest)?;
    let contract = known.text_of(contract)?;
    let currency = bytes(alloc, currency)?;
    let contract = read_contract(alloc, contract.as_bytes())?;
    Ok(Call::Publish { contract, currency })
}

// The call that publishes a contract without a currency.
fn publish_made(alloc: Global, contract: Contract) -> Call {
    Call::Publish {
        contract,
        currency: Bytes::from_vec(Vec::new(alloc)),
    }
}

// Names the transaction that is written, and hands it in.
fn hand_in<C: Calls>(
    alloc: Global,
    calls: &mut C,
    desk: &mut Desk,
    seat: u64,
    word: &str,
    name: &str,
) -> Result<String, RowFault> {
    name_written(alloc, desk, name)?;
    let tx = desk.tx.try_clone()?;
    let call = match word {
        "submit" => Call::Submit(tx),
        _ => Call::Enqueue(tx),
    };
    let told = calls.call(alloc, desk, seat, call);
    finish(alloc, desk, &told);
    told
}

/// Names the transaction that is written.
pub fn name_written(alloc: Global, desk: &mut Desk, name: &str) -> Result<(), RowFault> {
    put_in(&mut desk.known.sent, sent_of(alloc, name, &desk.tx))
}

/// Begins the next transaction once the one that was named last is handed in. Where it isn't, that one stays, without its name.
pub fn finish(alloc: Global, desk: &mut Desk, told: &Result<String, RowFault>) {
    take_back(&mut desk.known.sent, told);
    if told.is_ok() {
        replace(&mut desk.tx, nothing(alloc));
    }
}

// Enqueues so many copies of the transaction that is written: the last reply.
fn enqueues<C: Calls>(
    alloc: Global,
    calls: &mut C,
    desk: &mut Desk,
    seat: u64,
    count: u64,
) -> Result<String, RowFault> {
    let mut last = String::new(alloc);
    for _ in 0..count {
        let call = Call::Enqueue(desk.tx.try_clone()?);
        last = or_end(calls.call(alloc, desk, seat, call))?;
    }
    Ok(last)
}

// Where memory is refused to one of many calls, the line can't be taken once more.
fn or_end(told: Result<String, RowFault>) -> Result<String, RowFault> {
    match told {
        Err(RowFault::Refused) => Err(RowFault::Memory),
        told => told,
    }
}

// What a look asks for, from `thread REFERENCE`, `key ADDRESS` and `payout CURRENCY.ROLE`, in any number.
fn ask_of(alloc: Global, sent: &[Sent], rest: &str) -> Result<Ask, RowFault> {
    let mut ask = Ask {
        thread: None,
        keys: Items::new(alloc),
        payouts: Items::new(alloc),
    };
    let put = put_wishes(alloc, sent, &mut ask, rest);
    done(ask, put)
}

fn put_wishes(alloc: Global, sent: &[Sent], ask: &mut Ask, rest: &str) -> Result<(), RowFault> {
    let mut words = rest.split_whitespace();
    while let Some(sort) = words.next() {
        put_wish(alloc, sent, ask, sort, words.next().unwrap_or(""))?;
    }
    Ok(())
}

fn put_wish(
    alloc: Global,
    sent: &[Sent],
    ask: &mut Ask,
    sort: &str,
    word: &str,
) -> Result<(), RowFault> {
    match sort {
        "thread" => {
            ask.thread = Some(reference_of(sent, word)?);
            Ok(())
        }
        "key" => put(&mut ask.keys, text(alloc, word)),
        "payout" => put(&mut ask.payouts, payout_lock(alloc, word)),
        _ => Err(RowFault::NoSuchRow),
    }
}

fn payout_lock(alloc: Global, word: &str) -> Result<PayoutLock, RowFault> {
    let (currency, role) = sides(word, '.')?;
    let (currency, role) = both(bytes(alloc, currency), text(alloc, role))?;
    Ok(PayoutLock { currency, role })
}
