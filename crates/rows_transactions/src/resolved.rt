//! What a transaction that is written down more than once finds.
use crate::checks::found_under;
use crate::finds::Finds;
use contract::{Items, Memory};
use roles::{Output, Published, Resolved, Scripts, copy_option};
use rows_text::{Identified, Known, Named, RowFault, done};
use std::alloc::Global;

/// What a transaction finds where no chain is begun: what is said of its inputs, all that has a name, and under the ids of some of these
/// names something else, but for the word `check`.
pub fn found(
    alloc: Global,
    finds: &Finds,
    known: &Known,
    word: &str,
) -> Result<Resolved<Published>, RowFault> {
    let mut found = found_under::<Published>(alloc, &finds.outputs, &known.published)?;
    let put = match word {
        "check" => Ok(()),
        _ => put_others(&mut found.scripts, known, &finds.others),
    };
    done(found, put)
}

fn put_others(
    scripts: &mut Scripts<Published>,
    known: &Known,
    others: &[Named],
) -> Result<(), RowFault> {
    for other in others {
        let id = known.by_name(other.name())?.id();
        scripts.insert(id, other.shared()?)?;
    }
    Ok(())
}

/// Copies of what inputs find.
pub fn copies_of(
    alloc: Global,
    outputs: &[Option<Output>],
) -> Result<Items<Option<Output>>, Memory> {
    let mut copies = Items::new(alloc);
    for output in outputs {
        copies.push(copy_option(output.as_ref())?)?;
    }
    Ok(copies)
}
