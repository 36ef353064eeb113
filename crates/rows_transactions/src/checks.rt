//! Checks of transactions.
use crate::lines::in_row;
use crate::resolved::copies_of;
use crate::stubborn::Stubborn;
use contract::{Items, Memory};
use roles::{
    Judged, Output, Published, Resolved, Scripts, Shared, Tx, Validator, check, judge_local,
    judge_spent, verdict_of,
};
use rows_text::{Identified, Named, RowFault, both, called, done, verdict_line};
use std::alloc::{AllocError, Global};
use std::sync::Arc;
use std::sync::atomic::AtomicU64;

/// A validator that a row can ask for: what it is for something published.
pub trait Asked: Validator + Drop {
    fn of(alloc: Global, named: &Named) -> Result<Shared<Self>, Memory>;
}

impl Asked for Published {
    fn of(_alloc: Global, named: &Named) -> Result<Shared<Published>, Memory> {
        named.shared()
    }
}

impl Asked for Stubborn {
    fn of(alloc: Global, _named: &Named) -> Result<Shared<Stubborn>, Memory> {
        let asked = Arc::new(alloc, AtomicU64::new(0))?;
        Stubborn::shared(alloc, 0, &asked)
    }
}

/// The line for the verdict on a transaction and what it finds. It is generic in the scripts, so that no proof walks through their drop.
pub fn check_line<V: Validator + Drop>(
    alloc: Global,
    tx: &Tx,
    found: Result<Resolved<V>, RowFault>,
) -> Result<String, RowFault> {
    let checked = called(check(alloc, tx, found?))?;
    in_row(verdict_line(alloc, checked.verdict()))
}

/// The line for the verdict on a transaction whose inputs find these outputs, by the stubborn script under each id of what has a name.
pub fn stubborn_line(
    alloc: Global,
    tx: &Tx,
    outputs: &Items<Option<Output>>,
    names: &[Named],
) -> Result<String, RowFault> {
    check_line(alloc, tx, found_under::<Stubborn>(alloc, outputs, names))
}

/// What a transaction finds: these outputs, and a script for all that has a name.
pub fn found_under<V: Asked>(
    alloc: Global,
    outputs: &Items<Option<Output>>,
    names: &[Named],
) -> Result<Resolved<V>, RowFault> {
    let mut scripts = Scripts::new(alloc);
    let put = put_scripts(alloc, &mut scripts, names);
    resolved_of(done(scripts, put), outputs_of(alloc, outputs))
}

fn put_scripts<V: Asked>(
    alloc: Global,
    scripts: &mut Scripts<V>,
    names: &[Named],
) -> Result<(), RowFault> {
    for named in names {
        scripts.insert(named.id(), V::of(alloc, named)?)?;
    }
    Ok(())
}

fn outputs_of(
    alloc: Global,
    outputs: &Items<Option<Output>>,
) -> Result<Items<Option<Output>>, RowFault> {
    Ok(copies_of(alloc, outputs.as_slice())?)
}

/// A resolution of outputs and scripts, where both were made.
pub fn resolved_of<V: Drop, E: Drop>(
    scripts: Result<Scripts<V>, E>,
    outputs: Result<Items<Option<Output>>, E>,
) -> Result<Resolved<V>, E> {
    let (scripts, outputs) = both(scripts, outputs)?;
    Ok(Resolved { outputs, scripts })
}

/// The verdict by what a transaction and its resolution decide, or with the word `spent` by the rules of what it spends alone. It is
/// generic in the scripts, so that no proof walks through their drop.
pub fn rules_line<V: Validator + Drop>(
    alloc: Global,
    tx: &Tx,
    found: Result<Resolved<V>, RowFault>,
    word: &str,
) -> Result<String, RowFault> {
    let found = found?;
    let judged = match word {
        "spent" => judge_spent(alloc, tx, &found),
        _ => judge_local(alloc, tx, &found),
    };
    in_row(judged_line(alloc, judged))
}

fn judged_line(alloc: Global, judged: Result<Judged, Memory>) -> Result<String, AllocError> {
    let verdict = verdict_of(judged?.fault);
    verdict_line(alloc, &verdict)
}
