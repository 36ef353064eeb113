//! References of outputs.
use crate::fault::RowFault;
use crate::identified::{Identified, by_id, by_name};
use crate::words::{id, number, sides};
use contract::TryClone;
use roles::{Datum, OutputRef, Tx, tx_id};
use std::alloc::{AllocError, Global};

/// A transaction with its id, under the name that the rows give it.
pub struct Sent {
    name: String,
    id: [u8; 32],
    tx: Tx,
}

// Dropped once: the drop is written, not derived.
impl Drop for Sent {
    fn drop(self) {
        let Sent {
            name: _,
            id: _,
            tx: _,
        } = self;
    }
}

impl Identified for Sent {
    fn name(&self) -> &str {
        self.name.as_str()
    }

    fn id(&self) -> [u8; 32] {
        self.id
    }
}

impl Sent {
    /// The datum that it brings for the contract output at a place, if it does.
    fn datum_at(&self, index: u64) -> Option<&Datum> {
        match self.tx.contract_at(index) {
            Some(made) => Some(made.datum),
            None => None,
        }
    }
}

/// A transaction under a name.
pub fn sent_of(alloc: Global, name: &str, tx: &Tx) -> Result<Sent, RowFault> {
    let id = tx_id(alloc, tx)?;
    let name = String::from_str(alloc, name)?;
    let tx = tx.try_clone()?;
    Ok(Sent { name, id, tx })
}

/// The datum with which one of these transactions made an output, if one did.
pub fn datum_among<'a>(sent: &'a [Sent], reference: &OutputRef) -> Option<&'a Datum> {
    match reference {
        OutputRef::Genesis { .. } => None,
        OutputRef::Made { id, index } => match by_id(sent, id) {
            Some(maker) => maker.datum_at(*index),
            None => None,
        },
    }
}

/// An output, from `ORIGIN.PLACE`: the origin is `genesis`, the name of a transaction, or an id.
pub fn reference_of(sent: &[Sent], word: &str) -> Result<OutputRef, RowFault> {
    let (origin, index) = sides(word, '.')?;
    let index = number(index)?;
    match origin {
        "genesis" => Ok(OutputRef::Genesis { index }),
        _ => Ok(OutputRef::Made {
            id: id_of(sent, origin)?,
            index,
        }),
    }
}

// The id of the transaction of that name, or the one that the word spells.
fn id_of(sent: &[Sent], word: &str) -> Result<[u8; 32], RowFault> {
    match by_name(sent, word) {
        Some(named) => Ok(named.id),
        None => id(word),
    }
}

/// The word for a transaction: its first name, else its id.
pub fn word_of_id(alloc: Global, sent: &[Sent], id: &[u8; 32]) -> Result<String, AllocError> {
    match by_id(sent, id) {
        Some(named) => String::from_str(alloc, named.name.as_str()),
        None => hex::encode(alloc, id.as_slice()),
    }
}

/// The word for a reference: `ORIGIN.PLACE`.
pub fn word_of_reference(
    alloc: Global,
    sent: &[Sent],
    reference: &OutputRef,
) -> Result<String, AllocError> {
    match reference {
        OutputRef::Genesis { index } => format!(in alloc; "genesis.{index}"),
        OutputRef::Made { id, index } => {
            let origin = word_of_id(alloc, sent, id)?;
            format!(in alloc; "{origin}.{index}")
        }
    }
}
