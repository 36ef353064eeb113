//! How often a script is asked.
use crate::checks::resolved_of;
use crate::resolved::copies_of;
use crate::stubborn::Stubborn;
use contract::{Items, Memory};
use roles::{Checked, Output, Resolved, Scripts, Tx, Validator, check, recheck};
use rows_text::{Identified, Named, RowFault, both, done};
use std::alloc::Global;
use std::sync::Arc;
use std::sync::atomic::{AtomicU64, Ordering};

/// How often the stubborn script is asked by a check, then by another one with that check at hand, and then by one of an equal
/// transaction under another script.
pub fn asks_line(
    alloc: Global,
    tx: &Tx,
    outputs: &Items<Option<Output>>,
    names: &[Named],
) -> Result<String, RowFault> {
    let asked = Arc::new(alloc, AtomicU64::new(0))?;
    let first = found_by(alloc, outputs, names, 0, &asked);
    let equal = found_by(alloc, outputs, names, 0, &asked);
    let other = found_by(alloc, outputs, names, 1, &asked);
    counted(alloc, tx, &asked, both(first, both(equal, other)))
}

// It is generic in the scripts, so that no proof walks through their drop, and so are the next ones.
fn counted<V: Validator + Drop>(
    alloc: Global,
    tx: &Tx,
    asked: &AtomicU64,
    found: Result<(Resolved<V>, (Resolved<V>, Resolved<V>)), Memory>,
) -> Result<String, RowFault> {
    let (first, (equal, other)) = found?;
    let checked = both(check(alloc, tx, first), Ok((equal, other)));
    counted_again(alloc, tx, asked, checked)
}

fn counted_again<V: Validator + Drop>(
    alloc: Global,
    tx: &Tx,
    asked: &AtomicU64,
    checked: Result<(Checked<V>, (Resolved<V>, Resolved<V>)), Memory>,
) -> Result<String, RowFault> {
    let at_first = asked.load(Ordering::SeqCst);
    let (checked, (equal, other)) = checked?;
    let counts = counts_again(alloc, tx, asked, &checked, &equal, &other);
    told(alloc, at_first, counts)
}

fn counts_again<V: Validator>(
    alloc: Global,
    tx: &Tx,
    asked: &AtomicU64,
    checked: &Checked<V>,
    equal: &Resolved<V>,
    other: &Resolved<V>,
) -> Result<(u64, u64), Memory> {
    let at_hand = std::slice::from_ref(checked);
    drop(recheck(alloc, tx, equal, at_hand)?);
    let again = asked.load(Ordering::SeqCst);
    drop(recheck(alloc, tx, other, at_hand)?);
    Ok((again, asked.load(Ordering::SeqCst)))
}

fn told(
    alloc: Global,
    at_first: u64,
    counts: Result<(u64, u64), Memory>,
) -> Result<String, RowFault> {
    let (again, otherwise) = counts?;
    Ok(format!(in alloc; "asked {at_first}, {again}, {otherwise}")?)
}

fn found_by(
    alloc: Global,
    outputs: &Items<Option<Output>>,
    names: &[Named],
    kind: u64,
    asked: &Arc<AtomicU64, Global>,
) -> Result<Resolved<Stubborn>, Memory> {
    let mut scripts = Scripts::new(alloc);
    let put = put_scripts(alloc, &mut scripts, names, kind, asked);
    resolved_of(done(scripts, put), copies_of(alloc, outputs.as_slice()))
}

fn put_scripts(
    alloc: Global,
    scripts: &mut Scripts<Stubborn>,
    names: &[Named],
    kind: u64,
    asked: &Arc<AtomicU64, Global>,
) -> Result<(), Memory> {
    for named in names {
        scripts.insert(named.id(), Stubborn::shared(alloc, kind, asked)?)?;
    }
    Ok(())
}
