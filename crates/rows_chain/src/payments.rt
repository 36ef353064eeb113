//! Payments with what they find. Each is put together by functions that are generic in the parts, so that no proof
//! walks through the drop of a transaction.
ghost use Rattle.std.specs.Prelude.{IsTrue};
ghost use Rattle.parties.specs.Ledger.Bundle.Bundles.{AllPositive};

use crate::row::Row;
use contract::{Bytes, Entries, Interval, Items, Memory, Text, Token};
use parties::{
    Ask, Bundle, Lock, Output, OutputRef, Published, Redeemer, Resolved, Scripts, Spend, Tx,
};
use rows_text::{both, done, list, one, put_keys};
use std::alloc::Global;

/// The payments of a row, told apart by the ticks from which they may happen, with what they find: each spends outputs
/// of one lovelace under a key, and pays all of it to that key.
pub fn payments(alloc: Global, row: Row) -> Result<Vec<(Tx, Resolved<Published>)>, Memory> {
    let jobs = list(
        alloc,
        row.jobs,
        &|number| { both(payment(alloc, number, row.inputs), found(alloc, row.inputs)) },
    )?;
    Ok(jobs.into_vec())
}

/// The payment of a number: of the outputs that come after those of the payments before it.
pub fn payment(alloc: Global, number: u32, inputs: u32) -> Result<Tx, Memory> {
    let count = u64::from(inputs);
    let mut spends = Items::new(alloc);
    let put = put_keys(&mut spends, u64::from(number) * count, count);
    payment_by(alloc, number, inputs, done(spends, put))
}

/// The payment of a number, of one output.
pub fn payment_of(alloc: Global, number: u32, reference: OutputRef) -> Result<Tx, Memory> {
    let spend = Spend {
        reference,
        redeemer: Redeemer::None,
    };
    payment_by(alloc, number, 1, one(alloc, Ok(spend)))
}

// The payment of a number, by so many spends.
fn payment_by(
    alloc: Global,
    number: u32,
    inputs: u32,
    spends: Result<Items<Spend>, Memory>,
) -> Result<Tx, Memory> {
    let outputs = one(alloc, key_output(alloc, inputs));
    let signers = one(alloc, key(alloc));
    let (inputs, (outputs, signers)) = both(spends, both(outputs, signers))?;
    Ok(Tx {
        inputs,
        outputs,
        interval: Interval {
            from: i64::from(number),
            to: i64::MAX,
        },
        signers,
        datums: Items::new(alloc),
    })
}

/// What a payment finds.
pub fn found<V: Drop>(alloc: Global, inputs: u32) -> Result<Resolved<V>, Memory> {
    let outputs = list(alloc, inputs, &|_| some(key_output(alloc, 1)))?;
    Ok(Resolved {
        outputs,
        scripts: Scripts::new(alloc),
    })
}

/// What asks for all that is under the key of the payments.
pub fn ask(alloc: Global) -> Result<Ask, Memory> {
    Ok(Ask {
        thread: None,
        keys: one(alloc, key(alloc))?,
        payouts: Items::new(alloc),
    })
}

fn key(alloc: Global) -> Result<Text, Memory> {
    Ok(Text::from_string(String::from_str(alloc, "x")?))
}

/// So many lovelace under the key of the payments.
pub fn key_output(alloc: Global, amount: u32) -> Result<Output, Memory> {
    let (address, amount) = both(key(alloc), lovelace(alloc, amount))?;
    Ok(Output {
        lock: Lock::Key(address),
        amount,
    })
}

// So many lovelace, or nothing.
fn lovelace(alloc: Global, amount: u32) -> Result<Bundle, Memory> {
    let ada = Token {
        symbol: Bytes::from_vec(Vec::new(alloc)),
        name: Text::from_string(String::new(alloc)),
    };
    let mut entries = Vec::new(alloc);
    entries.push((ada, i128::from(amount)))?;
    match Entries::from_vec(entries) {
        Some(entries) => Ok(positive(alloc, entries)),
        None => Ok(Bundle::new(alloc)),
    }
}

fn positive(alloc: Global, entries: Entries<Token, i128>) -> Bundle {
    if are_positive(entries.as_slice()) {
        Bundle::from_entries(entries)
    } else {
        Bundle::new(alloc)
    }
}

fn are_positive(entries: &[(Token, i128)]) -> bool
    ensures { IsTrue result → AllPositive entries.now }
{
    match entries.split_first() {
        Some((first, rest)) => first.1 > 0 && are_positive(rest),
        None => true,
    }
}

fn some<T>(item: Result<T, Memory>) -> Result<Option<T>, Memory> {
    match item {
        Ok(item) => Ok(Some(item)),
        Err(memory) => Err(memory),
    }
}
