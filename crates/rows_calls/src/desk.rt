//! What is written so far.
use crate::offers::{Handed, hand_in};
use crate::parts::{WrittenPart, put_part};
use contract::Items;
use ledger::{Checked, Cont, Datum, Look, Output, Published, ThreadOutput, Tx};
use rows_text::{
    Known, RowFault, datum_of, named_text_of, nothing, number, output_of, parts, put, put_in,
    replace, write,
};
use rows_transactions::{Finds, is_of_finds, put_finds};
use std::alloc::Global;

/// What is written so far: the outputs to begin with, a transaction, what it finds where no chain is begun, what is handed in to build
/// one, what has a name, the last look, parts, and checks at hand.
pub struct Desk {
    pub genesis: Items<Output>,
    pub tx: Tx,
    pub finds: Finds,
    pub handed: Handed,
    pub known: Known,
    pub look: Option<Look>,
    pub parts: Vec<WrittenPart>,
    pub checks: Vec<Checked<Published>>,
}

// Dropped once: the drop is written, not derived.
impl Drop for Desk {
    fn drop(self) {
        let Desk {
            genesis: _,
            tx: _,
            finds: _,
            handed: _,
            known: _,
            look: _,
            parts: _,
            checks: _,
        } = self;
    }
}

/// A desk with nothing on it. Takes no memory.
pub fn empty_desk(alloc: Global) -> Desk {
    Desk {
        genesis: Items::new(alloc),
        tx: nothing(alloc),
        finds: Finds::new(alloc),
        handed: Handed::new(alloc),
        known: Known::new(alloc),
        look: None,
        parts: Vec::new(alloc),
        checks: Vec::new(alloc),
    }
}

/// Whether a line that begins with a word writes something.
pub fn is_written(word: &str) -> bool {
    match word {
        "let" | "genesis" | "geneses" | "datum" | "part" | "parts" => true,
        "offer" | "offers" | "claim" => true,
        "in" | "keys" | "out" | "from" | "signer" | "datums" => true,
        _ => is_of_finds(word),
    }
}

/// Writes a text with a name, a line of what the chain begins with, of a transaction, of what it finds, or of what is handed in.
pub fn written(alloc: Global, desk: &mut Desk, word: &str, rest: &str) -> Result<(), RowFault> {
    match word {
        "let" => put_in(&mut desk.known.texts, named_text_of(alloc, rest)),
        "genesis" => put(&mut desk.genesis, output_of(alloc, &desk.known, rest)),
        "geneses" => put_copies(alloc, &desk.known, &mut desk.genesis, rest),
        "datum" => put_datum(alloc, &desk.known, &mut desk.look, rest),
        "part" => put_part(alloc, &desk.known, &desk.look, &mut desk.parts, rest),
        "parts" => {
            replace(&mut desk.parts, Vec::new(alloc));
            Ok(())
        }
        "offer" | "offers" | "claim" => hand_in(
            alloc,
            &desk.known,
            &desk.look,
            &mut desk.handed,
            word,
            rest,
        ),
        _ if is_of_finds(word) => put_finds(
            alloc,
            &mut desk.known,
            &mut desk.tx,
            &mut desk.finds,
            word,
            rest,
        ),
        _ => write(alloc, &desk.known, &mut desk.tx, word, rest),
    }
}

// From `NUMBER STATE`: has the last look show its thread with this datum.
fn put_datum(
    alloc: Global,
    known: &Known,
    look: &mut Option<Look>,
    rest: &str,
) -> Result<(), RowFault> {
    let (cont, state) = parts(rest)?;
    let datum = datum_of(alloc, known, Cont(number(cont)?), state)?;
    match look {
        Some(look) => put_in_place(&mut look.thread, datum),
        None => Err(RowFault::NoSuchRow),
    }
}

fn put_in_place(thread: &mut Option<ThreadOutput>, datum: Datum) -> Result<(), RowFault> {
    match thread {
        Some(thread) => {
            replace(&mut thread.datum, datum);
            Ok(())
        }
        None => Err(RowFault::NoSuchRow),
    }
}

// From `COUNT OUTPUT`: puts so many of it behind the others.
fn put_copies(
    alloc: Global,
    known: &Known,
    outputs: &mut Items<Output>,
    rest: &str,
) -> Result<(), RowFault> {
    let (count, output) = parts(rest)?;
    let count: u64 = number(count)?;
    for _ in 0..count {
        put(outputs, output_of(alloc, known, output))?;
    }
    Ok(())
}
