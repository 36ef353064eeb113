//! What is said of what a transaction finds.
use contract::Items;
use roles::{Lock, Output, Tx};
use rows_text::{
    Known, Named, RowFault, Written, bring_for_input, bring_for_outputs, locked, named_of, number,
    parts, put, put_in, put_keys, replace, text, written_of,
};
use std::alloc::Global;

/// What the inputs of a transaction find, and what is found under the ids of names in place of what has these names.
pub struct Finds {
    pub outputs: Items<Option<Output>>,
    pub others: Vec<Named>,
}

// Dropped once: the drop is written, not derived.
impl Drop for Finds {
    fn drop(self) {
        let Finds {
            outputs: _,
            others: _,
        } = self;
    }
}

impl Finds {
    /// Nothing. Takes no memory.
    pub fn new(alloc: Global) -> Finds {
        Finds {
            outputs: Items::new(alloc),
            others: Vec::new(alloc),
        }
    }
}

/// Whether a line that begins with a word says what is found.
pub fn is_of_finds(word: &str) -> bool {
    match word {
        "finds" | "many" | "again" | "script" | "instead" => true,
        _ => false,
    }
}

/// Takes a line that says what is found.
pub fn put_finds(
    alloc: Global,
    known: &mut Known,
    tx: &mut Tx,
    finds: &mut Finds,
    word: &str,
    rest: &str,
) -> Result<(), RowFault> {
    match word {
        "finds" => put_find(alloc, tx, &mut finds.outputs, found_of(alloc, known, rest)),
        "many" => put_many(alloc, tx, &mut finds.outputs, rest),
        "again" => {
            replace(&mut finds.outputs, Items::new(alloc));
            bring_for_outputs(alloc, tx)
        }
        "script" => {
            let named = named_of(alloc, known, rest);
            put_in(&mut known.published, named)
        }
        "instead" => put_in(&mut finds.others, named_of(alloc, known, rest)),
        _ => Err(RowFault::NoSuchRow),
    }
}

// What an input finds: an output, or `nothing`.
fn found_of(alloc: Global, known: &Known, rest: &str) -> Result<Option<Written>, RowFault> {
    match rest {
        "nothing" => Ok(None),
        _ => Ok(Some(written_of(alloc, known, rest)?)),
    }
}

// Puts what an input finds behind the others, and brings its datum.
fn put_find(
    alloc: Global,
    tx: &mut Tx,
    finds: &mut Items<Option<Output>>,
    found: Result<Option<Written>, RowFault>,
) -> Result<(), RowFault> {
    match found? {
        Some(Written { output, datum }) => {
            put(finds, Ok(Some(output)))?;
            match datum {
                Some(datum) => bring_for_input(alloc, tx, datum),
                None => Ok(()),
            }
        }
        None => put(finds, Ok(None)),
    }
}

// Puts so many inputs of keys behind the others, each of which finds one lovelace, from `COUNT ADDRESS`.
fn put_many(
    alloc: Global,
    tx: &mut Tx,
    finds: &mut Items<Option<Output>>,
    rest: &str,
) -> Result<(), RowFault> {
    let (count, address) = parts(rest)?;
    let count: u64 = number(count)?;
    put_keys(&mut tx.inputs, 0, count)?;
    for _ in 0..count {
        put(finds, one_lovelace(alloc, address))?;
    }
    Ok(())
}

fn one_lovelace(alloc: Global, address: &str) -> Result<Option<Output>, RowFault> {
    let lock = Lock::Key(text(alloc, address)?);
    Ok(Some(locked(alloc, lock, "ada 1")?))
}
