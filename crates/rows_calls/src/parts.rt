//! Parts of steps in one transaction.
use builder::Part;
use contract::{Input, Items, Memory, TryClone};
use ledger::Look;
use rows_text::{Known, RowFault, both, inputs_of, put_in};
use std::alloc::Global;

/// A part that is written: a look that shows a thread, and the inputs that it is given.
pub struct WrittenPart {
    look: Look,
    inputs: Items<Input>,
}

// Dropped once: the drop is written, not derived.
impl Drop for WrittenPart {
    fn drop(self) {
        let WrittenPart { look: _, inputs: _ } = self;
    }
}

/// Puts a part behind the others, from `INPUT ..`: the thread of the last look.
pub fn put_part(
    alloc: Global,
    known: &Known,
    look: &Option<Look>,
    parts: &mut Vec<WrittenPart>,
    words: &str,
) -> Result<(), RowFault> {
    match look {
        Some(look) => {
            let (look, inputs) = both(copy_of(look), inputs_of(alloc, known, words))?;
            put_in(parts, Ok(WrittenPart { look, inputs }))
        }
        None => Err(RowFault::NoSuchRow),
    }
}

fn copy_of(look: &Look) -> Result<Look, RowFault> {
    Ok(look.try_clone()?)
}

/// The parts, lent.
pub fn lent_parts(alloc: Global, parts: &[WrittenPart]) -> Result<Vec<Part<'_>>, Memory> {
    let mut lent = Vec::new(alloc);
    for part in parts {
        lent.push(Part {
            look: &part.look,
            inputs: part.inputs.as_slice(),
        })?;
    }
    Ok(lent)
}
