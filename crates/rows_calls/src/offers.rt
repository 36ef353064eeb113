//! What is handed in beside a request.
use contract::{Items, TryClone};
use ledger::{Look, Output, OutputRef, Unspent};
use rows_text::{Known, RowFault, first, number, output_of, parts, put, reference_of};
use std::alloc::Global;

/// What is offered, and the payouts that are claimed.
pub struct Handed {
    pub offered: Items<Unspent>,
    pub claimed: Items<Unspent>,
}

// Dropped once: the drop is written, not derived.
impl Drop for Handed {
    fn drop(self) {
        let Handed {
            offered: _,
            claimed: _,
        } = self;
    }
}

impl Handed {
    /// Nothing. Takes no memory.
    pub fn new(alloc: Global) -> Handed {
        Handed {
            offered: Items::new(alloc),
            claimed: Items::new(alloc),
        }
    }
}

/// Hands in what a line says.
pub fn hand_in(
    alloc: Global,
    known: &Known,
    look: &Option<Look>,
    handed: &mut Handed,
    word: &str,
    rest: &str,
) -> Result<(), RowFault> {
    match word {
        "offer" => put(&mut handed.offered, unspent_of(alloc, known, look, rest)),
        "claim" => put(&mut handed.claimed, unspent_of(alloc, known, look, rest)),
        "offers" => offers(alloc, known, &mut handed.offered, rest),
        _ => Err(RowFault::NoSuchRow),
    }
}

// From `REFERENCE`, which the look shows, or from `REFERENCE OUTPUT`.
fn unspent_of(
    alloc: Global,
    known: &Known,
    look: &Option<Look>,
    rest: &str,
) -> Result<Unspent, RowFault> {
    let (reference, output) = first(rest);
    let reference = reference_of(&known.sent, reference)?;
    match output {
        "" => shown_at(look, &reference),
        _ => unspent(reference, output_of(alloc, known, output)),
    }
}

fn unspent(reference: OutputRef, output: Result<Output, RowFault>) -> Result<Unspent, RowFault> {
    let output = output?;
    Ok(Unspent { reference, output })
}

// What a look shows under a reference.
fn shown_at(look: &Option<Look>, reference: &OutputRef) -> Result<Unspent, RowFault> {
    match look {
        Some(look) => match unspent_at(look.keys.as_slice(), reference) {
            Some(found) => Ok(found.try_clone()?),
            None => copy_at(look.payouts.as_slice(), reference),
        },
        None => Err(RowFault::NoSuchRow),
    }
}

fn copy_at(outputs: &[Unspent], reference: &OutputRef) -> Result<Unspent, RowFault> {
    match unspent_at(outputs, reference) {
        Some(found) => Ok(found.try_clone()?),
        None => Err(RowFault::NoSuchRow),
    }
}

fn unspent_at<'a>(outputs: &'a [Unspent], reference: &OutputRef) -> Option<&'a Unspent> {
    for unspent in outputs {
        if unspent.reference == *reference {
            return Some(unspent);
        }
    }
    None
}

// From `COUNT OUTPUT`: the first outputs that the ledger began with, each as it is written.
fn offers(
    alloc: Global,
    known: &Known,
    offered: &mut Items<Unspent>,
    rest: &str,
) -> Result<(), RowFault> {
    let (count, output) = parts(rest)?;
    let count: u64 = number(count)?;
    for index in 0..count {
        let output = output_of(alloc, known, output);
        put(offered, unspent(OutputRef::Genesis { index }, output))?;
    }
    Ok(())
}
